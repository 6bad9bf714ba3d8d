ghost use Rattle.std.specs.Prelude.{◌≡◌, IsSome, OnOk, OnErr};
ghost use Rattle.std.specs.Cow.{cow_str_bytes};
ghost use Rattle.sj_text_core.specs.Find.{find};
ghost use Rattle.sj_document.specs.Document.{document_tree};
ghost use Rattle.sj_borrowed.specs.Inserts.{IsCopy};
ghost use Rattle.sj_borrowed.specs.Loans.{IsInserted};

use sj_borrowed::KnownKey;
use sj_borrowed::known_key::Error;
use sj_document::{
    BorrowedValue, Document, OwnedValue, Replace, borrowed_from_tape, owned_from_tape,
};
use sj_object::{HashMap, KeyText, ObjectHasher};
use sj_tape::to_tape;
use sj_text_core::{Refused, SameAs, StaticNode, TypedValue, ValueType, Writable};
use std::alloc::{AllocError, Global};
use std::borrow::CowStr;
use std::test::Fail;

fn read<'t>(alloc: Global, text: &'t mut [u8]) -> Result<BorrowedValue<'t>, Fail> {
    let tape = to_tape(alloc, text)?;
    Ok(borrowed_from_tape(alloc, tape.as_value())?)
}

/// Whether there is a value, and it is that number.
fn is(value: Option<&BorrowedValue<'_>>, n: u64) -> bool {
    value.is_some_and(|v| v.same_as(&n))
}

fn number<'v>(n: u64) -> BorrowedValue<'v> {
    Document::Static(StaticNode::U64(n))
}

/// An object with room for so many members, and the member `key` of 1.
fn roomy<'v>(alloc: Global, capacity: usize) -> Result<BorrowedValue<'v>, Fail> {
    let map = HashMap::with_capacity_and_hasher(alloc, capacity, ObjectHasher::default())?;
    let mut value = Document::Object(Box::new(alloc, map)?);
    let before = value.insert(CowStr::Borrowed("key"), number(1))?;
    if before.is_some() {
        return Err("a new object has a member".into());
    }
    Ok(value)
}

/// Inserts by two keys into an object with the member `key` of 1.
fn inserted(alloc: Global, mut value: BorrowedValue<'_>) -> Result<[bool; 4], Fail> {
    let first = KnownKey::from("key");
    let second = KnownKey::from("cake");
    let before = first.insert(&mut value, number(2))?;
    let is_new = second.insert(&mut value, number(3))?.is_none();
    Ok([
        is(before.as_ref(), 1),
        is_new,
        value.encode(alloc)?.as_str() == "{\"key\":2,\"cake\":3}",
        is(second.lookup(&value), 3),
    ])
}

#[test]
fn inserts(rt: HostRuntime) -> Result<(), Fail> {
    let alloc = rt.alloc();
    let mut text = *b"{\"key\":1}";
    let told = [
        inserted(alloc, read(alloc, &mut text)?)?,
        inserted(alloc, roomy(alloc, 0)?)?,
        inserted(alloc, roomy(alloc, 128)?)?,
    ];
    assert_eq!(rt; told, [[true; 4]; 3]);
    Ok(())
}

/// Whether the value of the key is that one, or else made of 3; and whether the closure was called.
fn is_called<'k>(
    value: &mut BorrowedValue<'k>,
    key: &KnownKey<'k>,
    want: u64,
) -> Result<(bool, bool), Fail> {
    let mut called = false;
    let found = KnownKey::lookup_or_insert_mut(value, key, || {
        called = true;
        number(3)
    })?;
    Ok((found.same_as(&want), called))
}

/// Looks for two keys in an object with the member `key` of 1, which get the other where absent.
fn inserted_where_absent(alloc: Global, mut value: BorrowedValue<'_>) -> Result<[bool; 3], Fail> {
    Ok([
        is_called(&mut value, &KnownKey::from("key"), 1)? == (true, false),
        is_called(&mut value, &KnownKey::from("cake"), 3)? == (true, true),
        value.encode(alloc)?.as_str() == "{\"key\":1,\"cake\":3}",
    ])
}

#[test]
fn inserts_where_absent(rt: HostRuntime) -> Result<(), Fail> {
    let alloc = rt.alloc();
    let mut text = *b"{\"key\":1}";
    let told = [
        inserted_where_absent(alloc, read(alloc, &mut text)?)?,
        inserted_where_absent(alloc, roomy(alloc, 0)?)?,
        inserted_where_absent(alloc, roomy(alloc, 128)?)?,
    ];
    assert_eq!(rt; told, [[true; 3]; 3]);
    Ok(())
}

/// A change that puts the number in the place of a value.
fn put<'v>(n: u64) -> Replace<BorrowedValue<'v>> {
    Replace { value: number(n) }
}

/// Whether the change was made, where that number stood before it.
fn was<E: Drop>(answer: Result<BorrowedValue<'_>, E>, n: u64) -> bool {
    match answer {
        Ok(before) => before.same_as(&n),
        Err(_) => false,
    }
}

/// Whether a change of the value is refused, with the number and the change handed back.
fn is_change_refused<'k>(value: &mut BorrowedValue<'k>, key: &KnownKey<'k>) -> bool {
    match KnownKey::change_or_insert(value, key, number(2), put(3)) {
        Ok(_) => false,
        Err(Refused { why, value }) => {
            let (new, change) = value;
            why == Error::NotAnObject(ValueType::Null)
                && new.same_as(&2_u64)
                && change.value.same_as(&3_u64)
        }
    }
}

/// No call of the closure is owed where the key is there: this one must not be called.
fn found<'v>(value: &mut BorrowedValue<'v>, key: &KnownKey<'v>) -> bool
    requires { IsSome (find (cow_str_bytes key.now) (document_tree cow_str_bytes value.old)) }
{
    KnownKey::lookup_or_insert_mut(value, key, || unreachable!()).is_ok()
}

/// Whether an insert into the value is refused, with the number handed back.
fn is_refused<'k>(value: &mut BorrowedValue<'k>, key: &KnownKey<'k>) -> bool {
    match key.insert(value, number(2)) {
        Ok(_) => false,
        Err(Refused { why, value }) => {
            why == Error::NotAnObject(ValueType::Null) && value.same_as(&2_u64)
        }
    }
}

#[test]
fn refuses_what_is_no_object(rt: HostRuntime) {
    let key = KnownKey::from("key");
    let mut null: BorrowedValue<'_> = Document::Static(StaticNode::Null);
    let refused = KnownKey::lookup_or_insert_mut(&mut null, &key, || number(2)).err();
    let told = [
        key.lookup(&null).is_none(),
        KnownKey::lookup_mut(&mut null, &key).is_none(),
        is_refused(&mut null, &key),
        is_change_refused(&mut null, &key),
        refused == Some(Error::NotAnObject(ValueType::Null)),
        null.value_type() == ValueType::Null,
    ];
    assert_eq!(rt; told, [true; 6]);
}

#[test]
fn faults_have_texts(rt: HostRuntime) -> Result<(), Fail> {
    for (fault, text) in [
        (
            Error::NotAnObject(ValueType::Null),
            "expected object, found null",
        ),
        (Error::OutOfMemory, "out of memory"),
    ] {
        assert_eq!(rt; format!(in rt.alloc(); "{fault}")?.as_str(), text);
    }
    Ok(())
}

#[test]
fn tells_texts_of_one_hash_apart(rt: HostRuntime) -> Result<(), Fail> {
    let alloc = rt.alloc();
    let mut text = *b"{\"Aa\":1}";
    let mut value = read(alloc, &mut text)?;
    let key = KnownKey::from("BB");
    let told = [
        key.lookup(&value).is_none(),
        key.insert(&mut value, number(2))?.is_none(),
        key != KnownKey::from("Aa"),
    ];
    assert_eq!(rt; told, [true; 3]);
    assert_eq!(rt; value.encode(alloc)?.as_str(), "{\"Aa\":1,\"BB\":2}");
    Ok(())
}

/// The owned document of a text.
fn read_owned(alloc: Global, text: &mut [u8]) -> Result<OwnedValue, Fail> {
    let tape = to_tape(alloc, text)?;
    Ok(owned_from_tape(alloc, tape.as_value())?)
}

/// Whether there is a value, and it is that number.
fn is_owned(value: Option<&OwnedValue>, n: u64) -> bool {
    value.is_some_and(|v| v.same_as(&n))
}

#[test]
fn writes_to_owned_documents(rt: HostRuntime) -> Result<(), Fail> {
    let mut text = *b"{\"key\":1}";
    let mut value = read_owned(rt.alloc(), &mut text)?;
    let key = KnownKey::from("key");
    let cake = KnownKey::from("cake");
    let is_read = is_owned(key.lookup(&value), 1);
    *KnownKey::lookup_mut(&mut value, &key).ok_or("the key is absent")? = Document::from(42_u64);
    let told = [
        is_read,
        is_owned(key.lookup(&value), 42),
        cake.lookup(&value).is_none(),
        KnownKey::lookup_mut(&mut value, &cake).is_none(),
    ];
    assert_eq!(rt; told, [true; 4]);
    Ok(())
}

#[test]
fn writes_to_owned_members(rt: HostRuntime) -> Result<(), Fail> {
    let mut text = *b"{\"key\":42}";
    let mut value = read_owned(rt.alloc(), &mut text)?;
    let key = KnownKey::from("key");
    let cake = KnownKey::from("cake");
    let members = value.as_object_mut().ok_or("no object")?;
    let is_read = is_owned(key.map_lookup(members), 42);
    *KnownKey::map_lookup_mut(members, &key).ok_or("the key is absent")? = Document::from(84_u64);
    let told = [
        is_read,
        cake.map_lookup(members).is_none(),
        KnownKey::map_lookup_mut(members, &cake).is_none(),
        is_owned(key.lookup(&value), 84),
    ];
    assert_eq!(rt; told, [true; 4]);
    Ok(())
}

/// Whether a copy of the key has its text, its sameness and its look.
fn is_shown(alloc: Global, key: KnownKey<'_>) -> Result<[bool; 5], Fail> {
    let copy = key.clone()?;
    let shown = format!(in alloc; "{copy:?}")?;
    Ok([
        copy.key().text() == "snot",
        copy == key,
        copy == KnownKey::from("snot"),
        copy != KnownKey::from("snots"),
        shown.as_str() == "KnownKey { key: \"snot\", hash: 3535232 }",
    ])
}

#[test]
fn shows_its_key(rt: HostRuntime) -> Result<(), Fail> {
    let alloc = rt.alloc();
    let name = String::from_str(alloc, "snot")?;
    let told = [
        is_shown(alloc, KnownKey::from("snot"))?,
        is_shown(alloc, KnownKey::from(&name))?,
        is_shown(alloc, KnownKey::from(String::from_str(alloc, "snot")?))?,
        is_shown(alloc, KnownKey::from(CowStr::Borrowed("snot")))?,
    ];
    assert_eq!(rt; told, [[true; 5]; 4]);
    Ok(())
}

/// What the map ends as is known to the caller.
fn sets<'k>(
    map: &mut HashMap<CowStr<'k>, u64, ObjectHasher>,
    key: &KnownKey<'k>,
) -> Result<(), AllocError>
    ensures ok { OnOk result (IsInserted (IsCopy key.now) (cow_str_bytes key.now) map.old map.new 7) }
    ensures err { OnErr result (map.new ≡ map.old) }
{
    let place = KnownKey::map_lookup_or_insert_mut(map, key, || 1)?;
    *place = 7;
    Ok(())
}

#[test]
fn writes_to_a_map(rt: HostRuntime) -> Result<(), Fail> {
    let mut map = HashMap::with_capacity_and_hasher(rt.alloc(), 0, ObjectHasher::default())?;
    let key = KnownKey::from("a");
    sets(&mut map, &key)?;
    assert_eq!(rt; key.map_lookup(&map), Some(&7));
    Ok(())
}

#[test]
fn calls_nothing_where_present(rt: HostRuntime) -> Result<(), Fail> {
    let mut value = roomy(rt.alloc(), 0)?;
    let key = KnownKey::from("key");
    if value.get(key.key().text()).is_none() {
        return Err("the key is absent".into());
    }
    assert!(rt; found(&mut value, &key));
    Ok(())
}
