//! Merge patches that leave their target where they are refused.
//!
//! What wants memory is done first, at each member as the patch comes to it, with a log of it; members
//! that go are left. Then the log is finished, or undone, and neither wants memory.

ghost use Rattle.std.specs.Prelude.{◌≡◌, ◌≢◌, ℕ, List, Some, OnOk, OnErr};
ghost use Rattle.sj_text_core.specs.Tree.{obj};
ghost use Rattle.sj_object.specs.Members.{entry_members};
ghost use Rattle.sj_document.specs.Document.{document_tree, IsAsItWas};
ghost use Rattle.sj_merge.specs.Merge.{merged, merged_members, target_members};
ghost use Rattle.sj_merge.specs.inner.Merge.{merged_pair};
ghost use Rattle.sj_merge.specs.inner.Log.{finished, finished_one, log_undone, undone_one, in_object, Passes, Merges, MergesAt, ChangesValue};

use crate::merging::{into_merged, new_object};
use sj_document::{Document, Object};
use sj_object::KeyText;
use sj_text_core::{TypedValue, ValueAsScalar};
use std::alloc::{AllocError, Global};
use std::mem;

/// What was done at a member of an object.
#[derive(Drop)]
enum Logged<T: KeyText> {
    /// The member of the key is to go, where there is one.
    Goes(T),
    /// A new member was put last.
    Added,
    /// The member of the key had that value, and has another.
    Swapped(T, Document<T>),
    /// The member of the key is an object that was merged into.
    Within(T, Vec<Logged<T>>),
}

/// Finishes what was logged at a member.
#[cycle(finish)]
fn finish_one<T: KeyText + Drop>(into: &mut Object<T>, logged: Logged<T>)
    ensures { entry_members (document_tree T.text_of) into.new.entries ≡ finished_one T.text_of logged (entry_members (document_tree T.text_of) into.old.entries) }
{
    match logged {
        Logged::Goes(key) => {
            into.remove(key.text());
        }
        Logged::Added | Logged::Swapped(_, _) => {}
        Logged::Within(key, log) => {
            if let Some(child) = into.get_mut(key.text()) {
                finish_within(child, log);
            }
        }
    }
}

/// Finishes the log of the value, where it is an object.
#[cycle(finish)]
fn finish_within<T: KeyText + Drop>(value: &mut Document<T>, log: Vec<Logged<T>>)
    ensures { document_tree T.text_of value.new ≡ in_object (finished T.text_of log.items) (document_tree T.text_of value.old) }
{
    match value {
        Document::Object(into) => finish(into, log),
        _ => {}
    }
}

/// Finishes all that was logged, from the first to the last. It wants no memory.
#[cycle(finish)]
fn finish<T: KeyText + Drop>(into: &mut Object<T>, log: Vec<Logged<T>>)
    ensures { entry_members (document_tree T.text_of) into.new.entries ≡ finished T.text_of log.items (entry_members (document_tree T.text_of) into.old.entries) }
{
    for logged in log {
        finish_one(into, logged);
    }
}

/// Undoes what was logged at a member.
#[cycle(undo)]
fn undo_one<T: KeyText + Drop>(into: &mut Object<T>, logged: Logged<T>)
    ensures { entry_members (document_tree T.text_of) into.new.entries ≡ undone_one T.text_of logged (entry_members (document_tree T.text_of) into.old.entries) }
{
    match logged {
        Logged::Goes(_) => {}
        Logged::Added => {
            into.pop();
        }
        Logged::Swapped(key, value) => {
            if let Some(child) = into.get_mut(key.text()) {
                *child = value;
            }
        }
        Logged::Within(key, log) => {
            if let Some(child) = into.get_mut(key.text()) {
                undo_within(child, log);
            }
        }
    }
}

/// Undoes the log of the value, where it is an object.
#[cycle(undo)]
fn undo_within<T: KeyText + Drop>(value: &mut Document<T>, log: Vec<Logged<T>>)
    ensures { document_tree T.text_of value.new ≡ in_object (log_undone T.text_of log.items) (document_tree T.text_of value.old) }
{
    match value {
        Document::Object(into) => undo(into, log),
        _ => {}
    }
}

/// Undoes all that was logged, from the last to the first. It wants no memory.
#[cycle(undo)]
fn undo<T: KeyText + Drop>(into: &mut Object<T>, log: Vec<Logged<T>>)
    ensures { entry_members (document_tree T.text_of) into.new.entries ≡ log_undone T.text_of log.items (entry_members (document_tree T.text_of) into.old.entries) }
{
    let mut left = log;
    while let Some(last) = left.pop() {
        undo_one(into, last);
    }
}

/// Merges the members into an object, but for those that go, and answers the log of it. Refused, it
/// leaves the object as it was.
#[cycle(merge)]
fn merge_within<T: KeyText + Drop>(
    alloc: Global,
    into: &mut Object<T>,
    members: Object<T>,
) -> Result<Vec<Logged<T>>, AllocError>
    ensures { Merges T.text_of (entry_members (document_tree T.text_of) members.entries) (entry_members (document_tree T.text_of) into.old.entries) (entry_members (document_tree T.text_of) into.new.entries) result }
{
    let mut log = Vec::new(alloc);
    for (key, value) in members {
        match merge_next(alloc, into, key, value, &mut log) {
            Ok(()) => {}
            Err(refused) => {
                undo(into, log);
                return Err(refused);
            }
        }
    }
    Ok(log)
}

/// Merges the next member, and logs what was done. Refused, it leaves the object as it was.
#[cycle(merge)]
fn merge_next<T: KeyText + Drop>(
    alloc: Global,
    into: &mut Object<T>,
    key: T,
    value: Document<T>,
    log: &mut Vec<Logged<T>>,
) -> Result<(), AllocError>
    ensures finished { OnOk result (Passes (T.text_of key) (finished T.text_of log.old.items) → finished T.text_of log.new.items (entry_members (document_tree T.text_of) into.new.entries) ≡ merged_pair (T.text_of key) (document_tree T.text_of value) (finished T.text_of log.old.items (entry_members (document_tree T.text_of) into.old.entries))) }
    ensures apart { (k : List ℕ) → k ≢ T.text_of key → Passes k (finished T.text_of log.old.items) → Passes k (finished T.text_of log.new.items) }
    ensures undone { log_undone T.text_of log.new.items (entry_members (document_tree T.text_of) into.new.entries) ≡ log_undone T.text_of log.old.items (entry_members (document_tree T.text_of) into.old.entries) }
{
    log.reserve(1)?;
    let logged = merge_member(alloc, into, key, value)?;
    log.push(logged).unwrap();
    Ok(())
}

/// Merges a member, but for one that goes. Refused, it leaves the object as it was.
#[cycle(merge)]
fn merge_member<T: KeyText + Drop>(
    alloc: Global,
    into: &mut Object<T>,
    key: T,
    value: Document<T>,
) -> Result<Logged<T>, AllocError>
    ensures { MergesAt T.text_of (T.text_of key) (document_tree T.text_of value) (entry_members (document_tree T.text_of) into.old.entries) (entry_members (document_tree T.text_of) into.new.entries) result }
{
    if value.is_null() {
        return Ok(Logged::Goes(key));
    }
    if let Some(child) = into.get_mut(key.text()) {
        return merge_value(alloc, key, child, value);
    }
    let made = into_merged(alloc, Document::null(), value)?;
    match into.insert(key, made) {
        Ok(_) => Ok(Logged::Added),
        Err(_) => Err(AllocError),
    }
}

/// Merges a value into that of the key, but for members that go. Refused, it leaves that as it was.
#[cycle(merge)]
fn merge_value<T: KeyText + Drop>(
    alloc: Global,
    key: T,
    child: &mut Document<T>,
    value: Document<T>,
) -> Result<Logged<T>, AllocError>
    ensures { ChangesValue T.text_of (T.text_of key) (document_tree T.text_of value) (document_tree T.text_of child.old) (document_tree T.text_of child.new) result }
{
    if !value.is_object() {
        return Ok(Logged::Swapped(key, mem::replace(child, value)));
    }
    match value.into_object() {
        Some(members) => merge_object(alloc, key, child, members),
        None => Err(AllocError),
    }
}

/// Merges the members into the value of the key; one that is no object becomes one.
#[cycle(merge)]
fn merge_object<T: KeyText + Drop>(
    alloc: Global,
    key: T,
    child: &mut Document<T>,
    members: Object<T>,
) -> Result<Logged<T>, AllocError>
    ensures { ChangesValue T.text_of (T.text_of key) (obj (entry_members (document_tree T.text_of) members.entries)) (document_tree T.text_of child.old) (document_tree T.text_of child.new) result }
{
    match child {
        Document::Object(into) => match merge_within(alloc, into, members) {
            Ok(log) => Ok(Logged::Within(key, log)),
            Err(refused) => Err(refused),
        },
        _ => {
            let made = new_object(alloc, members)?;
            Ok(Logged::Swapped(key, mem::replace(child, made)))
        }
    }
}

/// Merges all members into an object. Refused, it leaves the object as it was.
fn merge_all<T: KeyText + Drop>(
    alloc: Global,
    into: &mut Object<T>,
    members: Object<T>,
) -> Result<(), AllocError>
    ensures merged { OnOk result (entry_members (document_tree T.text_of) into.new.entries ≡ merged_members (entry_members (document_tree T.text_of) into.old.entries) (entry_members (document_tree T.text_of) members.entries)) }
    ensures refused { OnErr result (entry_members (document_tree T.text_of) into.new.entries ≡ entry_members (document_tree T.text_of) into.old.entries) }
{
    let log = merge_within(alloc, into, members)?;
    finish(into, log);
    Ok(())
}

/// Merges the members into the whole target; one that is no object becomes one. Refused, it leaves
/// the target as it was.
fn merge_whole<T: KeyText + Drop>(
    alloc: Global,
    target: &mut Document<T>,
    members: Object<T>,
) -> Result<(), AllocError>
    ensures merged { OnOk result (document_tree T.text_of target.new ≡ obj (merged_members (target_members (Some (document_tree T.text_of target.old))) (entry_members (document_tree T.text_of) members.entries))) }
    ensures refused { OnErr result (IsAsItWas T.text_of target.old target.new) }
{
    match target {
        Document::Object(into) => merge_all(alloc, into, members),
        _ => {
            *target = new_object(alloc, members)?;
            Ok(())
        }
    }
}

/// Merges the patch into the target (RFC 7396), without a copy of it. Refused for want of memory, the
/// target means what it meant; its objects may then have more buckets, and room for more members.
pub fn merge<T: KeyText + Drop>(
    alloc: Global,
    target: &mut Document<T>,
    patch: Document<T>,
) -> Result<(), AllocError>
    ensures merged { OnOk result (document_tree T.text_of target.new ≡ merged (Some (document_tree T.text_of target.old)) (document_tree T.text_of patch)) }
    ensures refused { OnErr result (IsAsItWas T.text_of target.old target.new) }
{
    if !patch.is_object() {
        *target = patch;
        return Ok(());
    }
    match patch.into_object() {
        Some(members) => merge_whole(alloc, target, members),
        None => Ok(()),
    }
}
