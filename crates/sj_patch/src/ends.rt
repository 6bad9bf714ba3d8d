//! What two arrays have the same at their ends.

ghost use Rattle.std.specs.Prelude.{◌+◌, ◌-◌, ◌≤◌, length, map, take, drop};
ghost use Rattle.sj_text_core.specs.Same.{Same};
ghost use Rattle.sj_document.specs.Document.{document_tree};
ghost use Rattle.sj_patch.specs.inner.Noted.{array};

use sj_document::Document;
use sj_object::KeyText;

/// How many items at the front are the same.
pub(crate) fn same_from_the_front<T: KeyText>(old: &[Document<T>], new: &[Document<T>]) -> usize
    ensures in_old { result ≤ length old.now }
    ensures in_new { result ≤ length new.now }
    ensures same { Same (array (map (document_tree T.text_of) (take result old.now))) (array (map (document_tree T.text_of) (take result new.now))) }
{
    let end = old.len().min(new.len());
    for i in 0..end {
        let same = old[i] == new[i];
        if !same {
            return i;
        }
    }
    end
}

/// How many items at the back are the same, behind the first of that number.
pub(crate) fn same_from_the_back<T: KeyText>(
    old: &[Document<T>],
    new: &[Document<T>],
    first: usize,
) -> usize
    requires in_old { first ≤ length old.now }
    requires in_new { first ≤ length new.now }
    ensures in_old { first + result ≤ length old.now }
    ensures in_new { first + result ≤ length new.now }
    ensures same { Same (array (map (document_tree T.text_of) (drop (length old.now - result) old.now))) (array (map (document_tree T.text_of) (drop (length new.now - result) new.now))) }
{
    let most = old.len().min(new.len()) - first;
    for i in 0..most {
        let same = old[old.len() - 1 - i] == new[new.len() - 1 - i];
        if !same {
            return i;
        }
    }
    most
}
