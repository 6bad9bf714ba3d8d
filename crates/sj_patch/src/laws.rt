//! What holds of the definitions: the function's contract is a law, and its body is empty.

ghost use Rattle.sj_patch.specs.DiffLaws.{DifferencesJoin};
ghost use Rattle.sj_patch.specs.Laws.{PatchesJoin, ReplaceIsRemoveAdd, MoveIsRemoveAdd, PatchedSame, PatchedSingle};
ghost use Rattle.sj_patch.specs.Locality.{PatchIsLocal, PatchedNowhere};
ghost use Rattle.sj_patch.specs.Listed.{ListsAreRead};

/// Operations may be applied in two runs, the second on what the first left.
pub fn patches_join()
    ensures { PatchesJoin }
{}

/// Operations on a part of a document, as a pointer finds it, do to the whole what they do to the
/// part alone, put back; those that add or remove at the pointer itself are not meant.
pub fn patch_is_local()
    ensures { PatchIsLocal }
{}

/// Where a pointer finds nothing, the first operation below it has no result.
pub fn patched_nowhere()
    ensures { PatchedNowhere }
{}

/// A replace below the root is a remove and then an add at its pointer, but for the order of members.
pub fn replace_is_remove_add()
    ensures { ReplaceIsRemoveAdd }
{}

/// A move that does not go into itself is a remove and then an add of what was there; to its own
/// place below the root too, but for the order of members.
pub fn move_is_remove_add()
    ensures { MoveIsRemoveAdd }
{}

/// Of documents that are the same the same operations make documents that are the same, or they
/// have the same fault.
pub fn patched_same()
    ensures { PatchedSame }
{}

/// Operations leave no key twice in an object, where none stood twice before.
pub fn patched_single()
    ensures { PatchedSingle }
{}

/// Where by the first operations one document becomes a second, and by further ones that becomes a
/// third, by all of them, in order, the first becomes the third.
pub fn differences_join()
    ensures { DifferencesJoin }
{}

/// The patch document that lists operations is read as these operations.
pub fn lists_are_read()
    ensures { ListsAreRead }
{}
