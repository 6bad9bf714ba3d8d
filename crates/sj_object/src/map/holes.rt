//! Holes in a table: places of members that were taken out, which chains pass over.
//!
//! A hole is the position of its place in the table, and the holes fall: the last place comes first.
//! So the place of a member follows from its position, and back, through the holes in their order.

ghost use Rattle.std.specs.Prelude.{◌≡◌, ◌+◌, ◌-◌, ◌<◌, ◌≤◌, ◌^◌, ℕ, length, drop};
ghost use Rattle.std.specs.List.{copy_within};
ghost use Rattle.std.specs.Vec.{vec_capacity};
ghost use Rattle.sj_object.specs.Holes.{raised_by, without, AreHoles};
ghost use Rattle.sj_object.specs.inner.Holes.{lowered_by, with_hole};

/// How many a table has at most.
pub const HOLES: usize = 8;

/// How many holes stand behind a place, of which so many are known to. The places of a chain fall, so
/// a look-up passes each hole once.
#[inline(always)]
pub fn pass(holes: &[usize], passed: usize, place: usize) -> usize
    requires holes { AreHoles 0 holes.now (2 ^ 64) }
    requires within { passed ≤ length holes.now }
    requires passed { (p : ℕ) → p ≤ place → lowered_by (drop passed holes.now) p ≡ lowered_by holes.now p }
    ensures within { result ≤ length holes.now }
    ensures passed { (p : ℕ) → p ≤ place → lowered_by (drop result holes.now) p ≡ lowered_by holes.now p }
    ensures place { lowered_by holes.now place + (length holes.now - result) ≡ place }
{
    let mut passed = passed;
    while passed < holes.len() && holes[passed] >= place {
        passed += 1;
    }
    passed
}

/// The place in the table of a place beside the holes.
pub fn raise(holes: &[usize], place: usize) -> usize
    requires { place + length holes.now < 2 ^ 64 }
    ensures { result ≡ raised_by holes.now place }
{
    let mut raised = place;
    let mut i = holes.len();
    while i > 0 {
        i -= 1;
        raised += usize::from(raised > holes[i]);
    }
    raised
}

/// Puts a hole among the others, for which there is room.
pub fn put_hole(holes: &mut Vec<usize>, hole: usize)
    requires { length holes.old.items < vec_capacity holes.old }
    ensures holes { holes.new.items ≡ with_hole hole holes.old.items }
    ensures capacity { vec_capacity holes.new ≡ vec_capacity holes.old }
{
    let mut i = 0;
    while i < holes.len() && hole <= holes[i] {
        i += 1;
    }
    let _ = holes.insert(i, hole);
}

/// Moves the hashes from a position to an end down to a place, where that is another.
fn move_down(hashes: &mut Vec<u64>, from: usize, end: usize, to: usize)
    requires down { to ≤ from }
    requires within { (from ≤ end) × (end ≤ length hashes.old.items) }
    ensures hashes { hashes.new.items ≡ copy_within hashes.old.items from end to }
    ensures capacity { vec_capacity hashes.new ≡ vec_capacity hashes.old }
{
    if to < from {
        hashes.copy_within(from..end, to);
    }
}

/// Takes the first hashes and those in the holes out. Each of the others moves once at most.
pub fn close(gone: usize, holes: &[usize], hashes: &mut Vec<u64>)
    requires holes { AreHoles gone holes.now (length hashes.old.items) }
    requires gone { gone + length holes.now ≤ length hashes.old.items }
    ensures hashes { hashes.new.items ≡ drop gone (without holes.now hashes.old.items) }
    ensures capacity { vec_capacity hashes.new ≡ vec_capacity hashes.old }
{
    let mut left = holes.len();
    let mut from = gone;
    let mut to = 0;
    while left > 0 {
        left -= 1;
        let hole = holes[left];
        move_down(hashes, from, hole, to);
        to += hole - from;
        from = hole + 1;
    }
    let end = hashes.len();
    move_down(hashes, from, end, to);
    hashes.truncate(end - (from - to));
}
