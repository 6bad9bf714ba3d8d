//! Changes of parts that are lent, by a key and by a position.

use crate::maps::{Numbers, numbered};
use refusals_common::{Fault, read, say, say_call, text_of};
use sj_document::{LendItem, LendMember, OwnedValue, Replace, change_item, change_member};
use sj_object::deserialize;
use sj_text_core::{StaticNode, ValueAsScalar, ValueObjectAccessAsScalar};

/// Changes parts of the first example, of a map and of a vector in their places, and looks at them.
pub fn change(rt: &(impl Print + AllocGlobal)) -> Result<(), Fault> {
    let alloc = rt.alloc();
    let mut bytes = text_of(alloc, "example")?;
    let read_one = deserialize::<OwnedValue, String>(alloc, bytes.as_mut_slice());
    let mut document = read(read_one)?;
    let mut items = vec![in alloc; 1_u64; 2]?;
    let mut members = numbered(alloc, 2)?;
    say_call(rt)?;
    let is_right = is_left(&mut document)
        && is_changed(&mut document)
        && is_changed_in(&mut items)
        && is_changed_at(&mut members);
    say(
        rt,
        if is_right {
            "found\n"
        } else {
            "ANOTHER TREE\n"
        },
    )
}

/// A value to put in the place of another.
fn number(value: u64) -> Replace<OwnedValue> {
    Replace {
        value: OwnedValue::Static(StaticNode::U64(value)),
    }
}

/// Whether changes of parts that are not there come back.
fn is_left(document: &mut OwnedValue) -> bool {
    change_member(document, "none", number(1)).is_err()
        && change_item(document, 0, number(1)).is_err()
        && document.member_mut("none").is_none()
        && document.item_mut(0).is_none()
}

/// Whether an item of the member is changed, and then the member.
fn is_changed(document: &mut OwnedValue) -> bool {
    let was = match document.member_mut("some") {
        Some(items) => change_item(items, 2, number(3)).is_ok_and(|old| old.as_u64() == Some(2)),
        None => false,
    };
    let is = match document.get("some") {
        Some(items) => items.get_idx(2).and_then(|item| item.as_u64()) == Some(3),
        None => false,
    };
    was && is
        && change_member(document, "some", number(4)).is_ok()
        && document.get_u64("some") == Some(4)
}

fn is_changed_in(items: &mut Vec<u64>) -> bool {
    change_item(items, 1, Replace { value: 7 }).is_ok_and(|old| old == 1)
        && items.item_mut(1).is_some_and(|item| *item == 7)
        && items.item_mut(2).is_none()
}

fn is_changed_at(members: &mut Numbers) -> bool {
    change_member(members, "k01", Replace { value: 9 }).is_ok_and(|old| old == 1)
        && members.member_mut("k01").is_some_and(|value| *value == 9)
        && members.member_mut("k02").is_none()
}
