//! Calls on maps, whose members are `k00` with 0, `k01` with 1 and so on.

ghost use Rattle.std.specs.Prelude.{◌≡◌, ◌<◌, IfOk, string_bytes};
ghost use Rattle.sj_text_core.specs.Hash.{hash as hash_of_text};

use refusals_common::{Fault, say, say_call, say_kept, say_made};
use sj_object::{HashMap, KeyHasher, ObjectHasher};
use sj_text_core::Refused;
use std::alloc::{AllocError, Global};

pub type Numbers = HashMap<String, u64, ObjectHasher>;

pub fn key_of(alloc: Global, number: u64) -> Result<String, AllocError> {
    format!(in alloc; "k{number:02}")
}

fn keys_of(alloc: Global, count: u64) -> Result<Vec<String>, AllocError> {
    let mut keys = Vec::new(alloc);
    for number in 0..count {
        keys.push(key_of(alloc, number)?)?;
    }
    Ok(keys)
}

pub fn numbered(alloc: Global, members: u64) -> Result<Numbers, Fault> {
    let mut map = HashMap::with_capacity_and_hasher(alloc, 0, ObjectHasher::default())?;
    for number in 0..members {
        if map.insert(key_of(alloc, number)?, number).is_err() {
            return Err(Fault::OutOfMemory);
        }
    }
    Ok(map)
}

/// How many buckets a map has that grew to so many members, and not past 128.
pub fn buckets_at(members: usize) -> Option<usize> {
    match members {
        0..=32 => None,
        33..=64 => Some(64),
        _ => Some(128),
    }
}

/// Whether the map has these keys in order, each with its place for its value, and so many
/// buckets.
fn is_numbered(map: &Numbers, keys: &[String], buckets: Option<usize>) -> bool {
    let mut place = 0;
    for (key, value) in map.iter() {
        let is_next = match keys.get(place) {
            Some(next) => next.as_str() == key.as_str(),
            None => false,
        };
        if !is_next || *value != place as u64 {
            return false;
        }
        place += 1;
    }
    place == keys.len() && map.len() == place && map.buckets() == buckets
}

/// A call that inserts.
#[derive(Clone, Copy)]
enum Call {
    Insert,
    Hashed,
    OrInsert,
    OrInsertHashed,
    Append,
    AppendWith,
    Shift,
}

impl Call {
    fn of(word: &str) -> Result<Call, Fault> {
        match word {
            "insert" => Ok(Call::Insert),
            "insert_hashed" => Ok(Call::Hashed),
            "get_or_insert_with" => Ok(Call::OrInsert),
            "get_or_insert_hashed_with" => Ok(Call::OrInsertHashed),
            "append_hashed" => Ok(Call::Append),
            "append_hashed_with" => Ok(Call::AppendWith),
            "shift_insert" => Ok(Call::Shift),
            _ => Err(Fault::Usage),
        }
    }
}

/// What a call that inserts answered.
#[derive(Drop)]
enum Answer {
    Inserted,
    /// The value that was there.
    There(u64),
    /// What came back.
    Refused(Option<(String, u64)>),
    /// A refusal, after the value was made.
    Made,
}

fn answer_of(answer: Result<Option<u64>, Refused<AllocError, (String, u64)>>) -> Answer {
    match answer {
        Ok(None) => Answer::Inserted,
        Ok(Some(before)) => Answer::There(before),
        Err(refused) => Answer::Refused(Some(refused.value)),
    }
}

/// What a call that calls a closure for an absent key answered.
fn answer_made(found: Option<u64>, is_made: bool) -> Answer {
    match found {
        Some(_) if is_made => Answer::Inserted,
        Some(before) => Answer::There(before),
        None if is_made => Answer::Made,
        None => Answer::Refused(None),
    }
}

fn get_or_insert(map: &mut Numbers, key: String, value: u64) -> Answer {
    let mut is_made = false;
    let found = match map.get_or_insert_with(key, || {
        is_made = true;
        value
    }) {
        Ok(found) => Some(*found),
        Err(AllocError) => None,
    };
    answer_made(found, is_made)
}

fn get_or_insert_hashed(map: &mut Numbers, hash: u64, key: String, value: u64) -> Answer
    requires { hash ≡ hash_of_text (string_bytes key) }
{
    let mut is_made = false;
    let found = match map.get_or_insert_hashed_with(hash, key, || {
        is_made = true;
        value
    }) {
        Ok(found) => Some(*found),
        Err(AllocError) => None,
    };
    answer_made(found, is_made)
}

/// Puts a key that is not there last, with the value or with what a closure makes.
fn append(map: &mut Numbers, is_made_late: bool, hash: u64, key: String, value: u64) -> Answer
    requires { hash ≡ hash_of_text (string_bytes key) }
{
    if map.position_hashed(hash, key.as_str()).is_some() {
        return Answer::There(value);
    }
    if !is_made_late {
        return match map.append_hashed(hash, key, value) {
            Ok(()) => Answer::Inserted,
            Err(refused) => Answer::Refused(Some(refused.value)),
        };
    }
    let mut is_made = false;
    let found = match map.append_hashed_with(hash, key, || {
        is_made = true;
        value
    }) {
        Ok(found) => Some(*found),
        Err(AllocError) => None,
    };
    answer_made(found, is_made)
}

/// Puts a key that is not there at a position, which is the last.
fn shift(map: &mut Numbers, key: String, value: u64) -> Answer {
    if map.get_index_of(key.as_str()).is_some() {
        return Answer::There(value);
    }
    match map.shift_insert(map.len(), key, value) {
        Ok(()) => Answer::Inserted,
        Err(refused) => Answer::Refused(Some(refused.value)),
    }
}

fn insert_by(call: Call, map: &mut Numbers, key: String, value: u64) -> Answer {
    let hash = ObjectHasher::default().hash_text(key.as_str());
    match call {
        Call::Insert => answer_of(map.insert(key, value)),
        Call::Hashed => answer_of(map.insert_hashed(hash, key, value)),
        Call::OrInsert => get_or_insert(map, key, value),
        Call::OrInsertHashed => get_or_insert_hashed(map, hash, key, value),
        Call::Append => append(map, false, hash, key, value),
        Call::AppendWith => append(map, true, hash, key, value),
        Call::Shift => shift(map, key, value),
    }
}

/// The number of members that a word names, at most 255.
pub fn count_of(word: &str) -> Result<u64, Fault>
    ensures { IfOk result (λ count. count < 256) }
{
    match word.parse::<u8>() {
        Ok(count) => Ok(u64::from(count)),
        Err(_) => Err(Fault::Usage),
    }
}

/// Inserts a new key behind so many members.
pub fn insert(rt: &(impl Print + AllocGlobal), call: &str, members: &str) -> Result<(), Fault> {
    let alloc = rt.alloc();
    let (call, members) = (Call::of(call)?, count_of(members)?);
    let mut map = numbered(alloc, members)?;
    let before = keys_of(alloc, members)?;
    let after = keys_of(alloc, members + 1)?;
    let key = key_of(alloc, members)?;
    say_call(rt)?;
    match insert_by(call, &mut map, key, members) {
        Answer::Inserted => say(rt, "inserted, ")?,
        Answer::There(_) => say(rt, "FOUND, ")?,
        Answer::Made => say(rt, "VALUE MADE, ")?,
        Answer::Refused(given) => {
            say(rt, "AllocError, ")?;
            if let Some((key, value)) = given {
                let is_key = after
                    .last()
                    .is_some_and(|last| last.as_str() == key.as_str());
                say_kept(rt, "key and value", is_key && value == members)?;
            }
            say_kept(
                rt,
                "map",
                is_numbered(&map, &before, buckets_at(before.len())),
            )?;
            match insert_by(call, &mut map, key_of(alloc, members)?, members) {
                Answer::Inserted => say(rt, "then inserted, ")?,
                _ => say(rt, "then NOT INSERTED, ")?,
            }
        }
    }
    tell_map(rt, &map, &after, buckets_at(after.len()))
}

/// Inserts a key that is there among so many members.
pub fn insert_present(
    rt: &(impl Print + AllocGlobal),
    call: &str,
    members: &str,
) -> Result<(), Fault> {
    let alloc = rt.alloc();
    let (call, members) = (Call::of(call)?, count_of(members)?);
    let mut map = numbered(alloc, members)?;
    let keys = keys_of(alloc, members)?;
    let key = key_of(alloc, 5)?;
    say_call(rt)?;
    match insert_by(call, &mut map, key, 99) {
        Answer::There(5) => say(rt, "was there, ")?,
        _ => say(rt, "ANOTHER ANSWER, ")?,
    }
    if let Some(value) = map.get_mut("k05") {
        let wanted = if matches!(call, Call::OrInsert | Call::OrInsertHashed) {
            5
        } else {
            99
        };
        say_kept(rt, "value", *value == wanted)?;
        *value = 5;
    }
    tell_map(rt, &map, &keys, buckets_at(keys.len()))
}

/// Takes the first of so many members out and inserts a new key, for which there is room then.
pub fn replace_first(rt: &(impl Print + AllocGlobal), members: &str) -> Result<(), Fault> {
    let alloc = rt.alloc();
    let Ok(members) = members.parse::<u8>() else {
        return Err(Fault::Usage);
    };
    let mut map = numbered(alloc, u64::from(members))?;
    let key = key_of(alloc, u64::from(members))?;
    say_call(rt)?;
    let first = map.remove("k00");
    let is_inserted = matches!(answer_of(map.insert(key, 7)), Answer::Inserted);
    let is_done = first == Some(0) && is_inserted && map.len() == usize::from(members);
    say(
        rt,
        if is_done {
            "replaced\n"
        } else {
            "NOT REPLACED\n"
        },
    )
}

/// What leaves in the middle, one more than are kept until the index is made anew.
const MIDDLE: [&str; 9] = [
    "k10", "k11", "k12", "k13", "k14", "k15", "k16", "k17", "k18",
];

/// Takes nine of so many members out of the middle, and then two at the end.
pub fn thin(rt: &(impl Print + AllocGlobal), members: &str) -> Result<(), Fault> {
    let alloc = rt.alloc();
    let Ok(members) = members.parse::<u8>() else {
        return Err(Fault::Usage);
    };
    let mut map = numbered(alloc, u64::from(members))?;
    say_call(rt)?;
    let mut left = 0usize;
    for name in MIDDLE {
        if map.remove(name).is_some() {
            left = left.saturating_add(1);
        }
    }
    let are_last = map.pop().is_some() && map.pop().is_some();
    let is_done = left == 9 && are_last && map.len().saturating_add(11) == usize::from(members);
    say(
        rt,
        if is_done {
            "thinned\n"
        } else {
            "NOT THINNED\n"
        },
    )
}

/// Tells how many members the map has, if they are as they should be.
fn tell_map(
    rt: &(impl Print + AllocGlobal),
    map: &Numbers,
    keys: &[String],
    buckets: Option<usize>,
) -> Result<(), Fault> {
    if !is_numbered(map, keys, buckets) {
        return say(rt, "WRONG MEMBERS\n");
    }
    let len = map.len();
    say(rt, format!(in rt.alloc(); "{len} members\n")?.as_str())
}

fn with_room(alloc: Global) -> Result<Numbers, AllocError> {
    HashMap::with_capacity_and_hasher(alloc, 40, ObjectHasher::default())
}

/// Makes a map with room for 40 members, twice.
pub fn with_capacity(rt: &(impl Print + AllocGlobal)) -> Result<(), Fault> {
    say_call(rt)?;
    say_made(rt, with_room(rt.alloc()).is_ok())?;
    say(rt, "again ")?;
    say_made(rt, with_room(rt.alloc()).is_ok())
}

/// Puts 32 members into a map that was made with room for 40, and reads it.
pub fn fill_room(rt: &(impl Print + AllocGlobal)) -> Result<(), Fault> {
    let alloc = rt.alloc();
    let mut map = with_room(alloc)?;
    let keys = keys_of(alloc, 32)?;
    let mut given = keys_of(alloc, 32)?.into_iter();
    let mut is_filled = true;
    say_call(rt)?;
    for number in 0..32 {
        if let Some(key) = given.next() {
            is_filled = is_filled && map.insert(key, number).is_ok();
        }
    }
    say(rt, if is_filled { "filled, " } else { "REFUSED, " })?;
    tell_map(rt, &map, &keys, None)
}
