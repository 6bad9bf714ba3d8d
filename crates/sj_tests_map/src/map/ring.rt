//! Maps whose members leave at the front and at the end.

use super::beside::Beside;
use sj_object::ObjectHasher;
use std::test::Fail;

#[test]
fn members_leave_at_both_ends(rt: HostRuntime) -> Result<(), Fail> {
    let alloc = rt.alloc();
    let mut beside = Beside::new(alloc, 70, ObjectHasher::default())?;
    let mut seen = 0usize;
    for left in 0..34 {
        assert!(rt; beside.remove(0), "{left}");
        assert!(rt; beside.pop(), "{left}");
        assert_eq!(rt; beside.agreeing(), 68 - 2 * left);
        seen = seen.saturating_add(1);
    }
    assert_eq!(rt; (seen, beside.list.len()), (34, 2));
    Ok(())
}

#[test]
fn grows_where_its_members_turn(rt: HostRuntime) -> Result<(), Fail> {
    let alloc = rt.alloc();
    for gone in [1, 15, 16, 17, 40] {
        let mut beside = Beside::new(alloc, 64, ObjectHasher::default())?;
        for _ in 0..gone {
            assert!(rt; beside.remove(0), "{gone}");
        }
        for number in 0..100 {
            beside.push(alloc, 64 + number)?;
        }
        let told = (beside.agreeing() as u64, beside.map.buckets());
        let buckets = if gone < 36 { 256 } else { 128 };
        assert_eq!(rt; told, (164 - gone, Some(buckets)));
    }
    Ok(())
}

#[test]
fn hands_its_members_out(rt: HostRuntime) -> Result<(), Fail> {
    let alloc = rt.alloc();
    let mut beside = Beside::new(alloc, 40, ObjectHasher::default())?;
    for number in 0..30 {
        assert!(rt; beside.remove(0), "{number}");
        beside.push(alloc, 40 + number)?;
    }
    let Beside { mut map, list: _ } = beside;
    let first = map.keys().next().map(|key| key.as_str() == "k30");
    assert_eq!(rt; (first, map.keys().count()), (Some(true), 40));
    if let Some(value) = map.get_mut("k35") {
        *value = 7;
    }
    let last = map.pop().map(|(_, number)| number);
    let mut sum = 0u64;
    let mut seen = 0usize;
    for value in map.values() {
        sum = sum.wrapping_add(*value % 1000);
        seen = seen.saturating_add(1);
    }
    // 30 + 31 + .. + 68, with 7 for 35
    assert_eq!(rt; (last, seen, sum), (Some(69), 39, 1883));
    let mut wanted = 30u64;
    let mut in_order = 0usize;
    for (_, number) in map {
        if number == if wanted == 35 { 7 } else { wanted } {
            in_order = in_order.saturating_add(1);
        }
        wanted = wanted.wrapping_add(1);
    }
    assert_eq!(rt; in_order, 39);
    Ok(())
}
