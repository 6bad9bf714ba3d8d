//! The one walk of writes at a path, on a bounded stack and without memory.
//!
//! On the way down the part that a step finds is taken out, and what it stood in stands in turn in
//! the place of the next part that is taken out. On the way up each goes back into its place.

ghost use Rattle.std.specs.Prelude.{◌≡◌, ◌≤◌, None, IfOk, IfErr, length, map, string_bytes};
ghost use Rattle.sj_text_core.specs.Paths.{Step, by_key, tree_at, set_at};
ghost use Rattle.sj_document.specs.Document.{document_tree, IsEdited, IsAsItWas, ChangesFound};
ghost use Rattle.sj_document.specs.Descents.{Exchanged};
ghost use Rattle.sj_document.specs.inner.Descents.{plug, IsSpine, Descended};

use crate::value::Document;
use crate::value::change::{Change, Replace};
use crate::value::swap::swap_member;
use sj_object::KeyText;
use std::mem;

/// How steps of one kind lead into documents.
pub trait Leads<S> {
    /// What a step means.
    ghost step_of: { S → Step };

    /// Puts `other` in the place of what the step finds, and answers that. Where it finds nothing,
    /// `other` comes back as `Err`, and the document stays as it was.
    fn swap<T: KeyText>(
        step: &S,
        value: &mut Document<T>,
        other: Document<T>,
    ) -> Result<Document<T>, Document<T>>
        ensures { Exchanged T.text_of (step_of step.now) other (document_tree T.text_of value.old) (document_tree T.text_of value.new) result };
}

/// Steps that are keys.
struct ByKey;

impl Leads<String> for ByKey {
    ghost step_of = { λ s. by_key (string_bytes s) };

    fn swap<T: KeyText>(
        step: &String,
        value: &mut Document<T>,
        other: Document<T>,
    ) -> Result<Document<T>, Document<T>>
        ensures { Exchanged T.text_of (by_key (string_bytes step.now)) other (document_tree T.text_of value.old) (document_tree T.text_of value.new) result }
    {
        swap_member(value, step.as_str(), other)
    }
}

/// Goes down along the path as far as it leads: the value is then what stands there. Answers what
/// that was taken out of, which `climb` takes, and how many steps were gone.
fn descend<W: Leads<S>, S, T: KeyText + Drop>(
    value: &mut Document<T>,
    path: &[S],
) -> (Document<T>, usize)
    ensures { Descended (map W.step_of path.now) (document_tree T.text_of value.old) (document_tree T.text_of value.new) (document_tree T.text_of result.0) result.1 }
{
    let mut up = Document::null();
    let mut depth = 0;
    while depth < path.len() {
        match W::swap(&path[depth], value, up) {
            Ok(part) => {
                up = mem::replace(value, part);
                depth += 1;
            }
            Err(back) => return (back, depth),
        }
    }
    (up, depth)
}

/// Goes back up: the value is then the whole again, with what it was in the place that `depth` steps
/// lead to.
fn climb<W: Leads<S>, S, T: KeyText + Drop>(
    value: &mut Document<T>,
    path: &[S],
    depth: usize,
    up: Document<T>,
)
    requires within { depth ≤ length path.now }
    requires spine { IsSpine (map W.step_of path.now) depth (document_tree T.text_of up) }
    ensures { document_tree T.text_of value.new ≡ plug (map W.step_of path.now) depth (document_tree T.text_of up) (document_tree T.text_of value.old) }
{
    let mut up = up;
    let mut left = depth;
    while left > 0 {
        left -= 1;
        let below = mem::replace(value, up);
        up = match W::swap(&path[left], value, below) {
            Ok(next) => next,
            Err(back) => back,
        };
    }
}

/// Changes what stands at the path, and answers what the change does; the rest of the document stays.
/// Where nothing stands there the document is as it was, and the change comes back.
pub fn update_at<W: Leads<S>, S, T: KeyText + Drop, C: Change<Document<T>>>(
    value: &mut Document<T>,
    path: &[S],
    change: C,
) -> Result<C::Answer, C>
    ensures changed { IfOk result (ChangesFound T.text_of (C.makes change) (tree_at (map W.step_of path.now)) (set_at (map W.step_of path.now)) value.old value.new) }
    ensures absent { IfErr result (λ back. (back ≡ change) × (tree_at (map W.step_of path.now) (document_tree T.text_of value.old) ≡ None) × IsAsItWas T.text_of value.old value.new) }
{
    let (up, depth) = descend::<W, S, T>(value, path);
    if depth < path.len() {
        climb::<W, S, T>(value, path, depth, up);
        return Err(change);
    }
    let answer = change.change(value);
    climb::<W, S, T>(value, path, depth, up);
    Ok(answer)
}

/// Puts `new` in the place of what stands at the path of keys, if anything does. Else `new` is let
/// go, and the document is as it was.
pub fn replace_at<T: KeyText + Drop>(value: &mut Document<T>, path: &[String], new: Document<T>)
    ensures { IsEdited T.text_of (set_at (map (λ s. by_key (string_bytes s)) path.now) (document_tree T.text_of new)) value.old value.new }
{
    let _ = update_at::<ByKey, String, T, Replace<Document<T>>>(
        value,
        path,
        Replace { value: new },
    );
}
