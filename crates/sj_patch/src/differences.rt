//! Where two documents differ.

ghost use Rattle.std.specs.Prelude.{◌≡◌, ◌-◌, ◌≤◌, [], ◌∷◌, ◌++◌, length, map, take, drop, IfOk, OnOk};
ghost use Rattle.sj_text_core.specs.Tree.{obj, paired};
ghost use Rattle.sj_text_core.specs.Same.{Same};
ghost use Rattle.sj_object.specs.Members.{entry_members};
ghost use Rattle.sj_document.specs.Document.{document_tree};
ghost use Rattle.sj_patch.specs.Diff.{Becomes};
ghost use Rattle.sj_patch.specs.Locality.{under};
ghost use Rattle.sj_patch.specs.Meant.{meant};
ghost use Rattle.sj_patch.specs.inner.Noted.{token_meant, noted_path, noted_by, Notes, array, between, removals_at, additions, unmatched, new_members};
ghost use Rattle.sj_patch.specs.Patch.{add, remove};

use crate::ends::{same_from_the_back, same_from_the_front};
use crate::near::value_near;
use crate::operation::Operation;
use crate::token::{Token, pointer_of, text_of};
use sj_document::{Document, Object};
use sj_path::OwnedText;
use sj_pointer::Pointer;
use std::alloc::{AllocError, Global};

/// How many arrays and objects a walk goes into; what lies deeper is replaced whole.
const LEVELS: usize = 128;

/// A walk over two documents: the place where it is, and the operations so far.
#[derive(Drop)]
pub(crate) struct Differences<'d, T: OwnedText + Drop> {
    alloc: Global,
    place: Vec<Token<'d>>,
    operations: Vec<Operation<T>>,
}

impl<'d, T: OwnedText + Drop> Differences<'d, T> {
    /// The operations that lead from one document to the other.
    pub(crate) fn between(
        alloc: Global,
        from: &'d Document<T>,
        to: &'d Document<T>,
    ) -> Result<Vec<Operation<T>>, AllocError>
        ensures becomes { IfOk result (λ operations. Becomes (map (meant T.text_of) operations.items) (document_tree T.text_of from.now) (document_tree T.text_of to.now)) }
        ensures none { IfOk result (λ operations. Same (document_tree T.text_of from.now) (document_tree T.text_of to.now) → operations.items ≡ []) }
    {
        let mut differences = Differences {
            alloc,
            place: Vec::new(alloc),
            operations: Vec::new(alloc),
        };
        differences.compare(from, to, LEVELS)?;
        Ok(differences.operations)
    }

    /// Notes how one value becomes the other.
    #[cycle(compare)]
    fn compare(
        &mut self,
        from: &'d Document<T>,
        to: &'d Document<T>,
        levels: usize,
    ) -> Result<(), AllocError>
        ensures place { OnOk result (self.new.place.items ≡ self.old.place.items) }
        ensures notes { OnOk result (Notes (noted_path self.old) (noted_by T.text_of self.old) (noted_by T.text_of self.new) (document_tree T.text_of from.now) (document_tree T.text_of to.now) (document_tree T.text_of to.now)) }
    {
        match from {
            Document::Object(old) => match to {
                Document::Object(new) if levels > 0 => self.compare_members(old, new, levels - 1),
                _ => self.replace(from, to),
            },
            Document::Array(old) => match to {
                Document::Array(new) if levels > 0 => {
                    self.compare_items(old.as_slice(), new.as_slice(), levels - 1)
                }
                _ => self.replace(from, to),
            },
            Document::Static(_) | Document::String(_) => self.replace(from, to),
        }
    }

    /// Notes how the member or item of that token becomes the other.
    #[cycle(compare)]
    fn compare_at(
        &mut self,
        token: Token<'d>,
        from: &'d Document<T>,
        to: &'d Document<T>,
        levels: usize,
    ) -> Result<(), AllocError>
        ensures place { OnOk result (self.new.place.items ≡ self.old.place.items) }
        ensures notes { OnOk result (Notes (noted_path self.old ++ token_meant token.entry ∷ []) (noted_by T.text_of self.old) (noted_by T.text_of self.new) (document_tree T.text_of from.now) (document_tree T.text_of to.now) (document_tree T.text_of to.now)) }
    {
        self.place.push(token)?;
        self.compare(from, to, levels)?;
        let _token = self.place.pop();
        Ok(())
    }

    /// Notes that the value goes in the place of the other, unless they are the same.
    fn replace(&mut self, from: &Document<T>, to: &Document<T>) -> Result<(), AllocError>
        ensures place { OnOk result (self.new.place.items ≡ self.old.place.items) }
        ensures notes { OnOk result (Notes (noted_path self.old) (noted_by T.text_of self.old) (noted_by T.text_of self.new) (document_tree T.text_of from.now) (document_tree T.text_of to.now) (document_tree T.text_of to.now)) }
    {
        if *from == *to {
            return Ok(());
        }
        let path = pointer_of(self.alloc, self.place.as_slice())?;
        let value = to.clone()?;
        self.operations.push(Operation::Replace { path, value })?;
        Ok(())
    }

    /// The pointer to the member or item of that token.
    fn path_to(&self, token: Token) -> Result<Pointer, AllocError>
        ensures { IfOk result (λ path. path ≡ noted_path self.now ++ token_meant token.entry ∷ []) }
    {
        let mut path = pointer_of(self.alloc, self.place.as_slice())?;
        path.push(text_of(self.alloc, token)?)?;
        Ok(path)
    }

    /// Notes that the member or item of that token goes.
    fn remove(&mut self, token: Token) -> Result<(), AllocError>
        ensures place { OnOk result (self.new.place.items ≡ self.old.place.items) }
        ensures noted { OnOk result (noted_by T.text_of self.new ≡ noted_by T.text_of self.old ++ map (under (noted_path self.old)) (remove (token_meant token.entry ∷ []) ∷ [])) }
    {
        let path = self.path_to(token)?;
        self.operations.push(Operation::Remove { path })?;
        Ok(())
    }

    /// Notes that the value comes to that token.
    fn add(&mut self, token: Token, value: &Document<T>) -> Result<(), AllocError>
        ensures place { OnOk result (self.new.place.items ≡ self.old.place.items) }
        ensures noted { OnOk result (noted_by T.text_of self.new ≡ noted_by T.text_of self.old ++ map (under (noted_path self.old)) (add (token_meant token.entry ∷ []) (document_tree T.text_of value.now) ∷ [])) }
    {
        let path = self.path_to(token)?;
        let value = value.clone()?;
        self.operations.push(Operation::Add { path, value })?;
        Ok(())
    }

    /// Notes how the members become the others. Each is looked for in its own place first.
    #[cycle(compare)]
    fn compare_members(
        &mut self,
        old: &'d Object<T>,
        new: &'d Object<T>,
        levels: usize,
    ) -> Result<(), AllocError>
        ensures place { OnOk result (self.new.place.items ≡ self.old.place.items) }
        ensures notes { OnOk result (Notes (noted_path self.old) (noted_by T.text_of self.old) (noted_by T.text_of self.new) (obj (entry_members (document_tree T.text_of) old.now.entries)) (obj (entry_members (document_tree T.text_of) new.now.entries)) (obj (entry_members (document_tree T.text_of) new.now.entries))) }
    {
        let mut others = new.iter();
        for (key, value) in old.iter() {
            let text = key.text();
            match value_near(new, others.next(), text) {
                Some(other) => self.compare_at(Token::Key(text), value, other, levels)?,
                None => self.remove(Token::Key(text))?,
            }
        }
        self.add_members(old, new)
    }

    /// Notes that the members come whose keys were not there.
    fn add_members(&mut self, old: &Object<T>, new: &Object<T>) -> Result<(), AllocError>
        ensures place { OnOk result (self.new.place.items ≡ self.old.place.items) }
        ensures noted { OnOk result (noted_by T.text_of self.new ≡ noted_by T.text_of self.old ++ map (under (noted_path self.old)) (new_members (unmatched (paired (entry_members (document_tree T.text_of) old.now.entries)) (paired (entry_members (document_tree T.text_of) new.now.entries))))) }
    {
        let mut others = old.iter();
        for (key, value) in new.iter() {
            let text = key.text();
            match value_near(old, others.next(), text) {
                Some(_) => {}
                None => self.add(Token::Key(text), value)?,
            }
        }
        Ok(())
    }

    /// Notes how the items become the others; of arrays of different lengths, how those become
    /// them that stand between what is the same at both ends.
    #[cycle(compare)]
    fn compare_items(
        &mut self,
        old: &'d [Document<T>],
        new: &'d [Document<T>],
        levels: usize,
    ) -> Result<(), AllocError>
        ensures place { OnOk result (self.new.place.items ≡ self.old.place.items) }
        ensures notes { OnOk result (Notes (noted_path self.old) (noted_by T.text_of self.old) (noted_by T.text_of self.new) (array (map (document_tree T.text_of) old.now)) (array (map (document_tree T.text_of) new.now)) (array (map (document_tree T.text_of) new.now))) }
    {
        if old.len() == new.len() {
            return self.compare_pairs(old, new, 0, old.len(), levels);
        }
        let first = same_from_the_front(old, new);
        let last = same_from_the_back(old, new, first);
        let old_end = old.len() - last;
        let new_end = new.len() - last;
        let end = old_end.min(new_end);
        self.compare_pairs(old, new, first, end, levels)?;
        self.remove_items(end, old_end)?;
        self.add_items(new, end, new_end)
    }

    /// Notes how the items of these positions become the others.
    #[cycle(compare)]
    fn compare_pairs(
        &mut self,
        old: &'d [Document<T>],
        new: &'d [Document<T>],
        first: usize,
        end: usize,
        levels: usize,
    ) -> Result<(), AllocError>
        requires in_order { first ≤ end }
        requires in_old { end ≤ length old.now }
        requires in_new { end ≤ length new.now }
        ensures place { OnOk result (self.new.place.items ≡ self.old.place.items) }
        ensures notes { OnOk result (Notes (noted_path self.old) (noted_by T.text_of self.old) (noted_by T.text_of self.new) (array (map (document_tree T.text_of) old.now)) (array (map (document_tree T.text_of) new.now)) (array (between first end (map (document_tree T.text_of) old.now) (map (document_tree T.text_of) new.now)))) }
    {
        for i in first..end {
            self.compare_at(Token::Position(i), &old[i], &new[i], levels)?;
        }
        Ok(())
    }

    /// Notes that the items go from the first position to the second.
    fn remove_items(&mut self, first: usize, end: usize) -> Result<(), AllocError>
        requires { first ≤ end }
        ensures place { OnOk result (self.new.place.items ≡ self.old.place.items) }
        ensures noted { OnOk result (noted_by T.text_of self.new ≡ noted_by T.text_of self.old ++ map (under (noted_path self.old)) (removals_at first (end - first))) }
    {
        for _ in first..end {
            self.remove(Token::Position(first))?;
        }
        Ok(())
    }

    /// Notes that those items come from the first position to the second.
    fn add_items(
        &mut self,
        items: &[Document<T>],
        first: usize,
        end: usize,
    ) -> Result<(), AllocError>
        requires in_order { first ≤ end }
        requires in_items { end ≤ length items.now }
        ensures place { OnOk result (self.new.place.items ≡ self.old.place.items) }
        ensures noted { OnOk result (noted_by T.text_of self.new ≡ noted_by T.text_of self.old ++ map (under (noted_path self.old)) (additions first (map (document_tree T.text_of) (drop first (take end items.now))))) }
    {
        for i in first..end {
            self.add(Token::Position(i), &items[i])?;
        }
        Ok(())
    }
}
