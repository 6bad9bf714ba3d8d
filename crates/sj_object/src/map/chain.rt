//! The chains of members whose hashes share a bucket.
//!
//! A place is a position in a table counted from 1, and 0 is the end of a chain. A chain begins at
//! its highest place, and each link goes to a lower one. Members that left keep their places until
//! they are forgotten: a chain ends at those that left at the front, and passes the others over.

ghost use Rattle.std.specs.Prelude.{◌≡◌, ◌+◌, ◌<◌, ◌%◌, ◌^◌, [], ◌∷◌, ◌++◌, length};
ghost use Rattle.sj_object.specs.inner.Chains.{IsLinked};
ghost use Rattle.sj_object.specs.Holes.{raised_by, without, AreHoles, IsChained};

use super::holes::raise;

/// The bucket of a hash, of 2 to the power of `bits`.
#[inline]
pub fn bucket_of(hash: u64, bits: u32) -> usize
    requires { bits < 64 }
    ensures { result ≡ hash % 2 ^ bits }
{
    (hash & ((1u64 << bits) - 1)) as usize
}

/// Puts the members into their chains, where none is in one.
pub fn link(bits: u32, hashes: &[u64], links: &mut [usize], heads: &mut [usize])
    requires bits { bits < 64 }
    requires linked { IsLinked (2 ^ bits) hashes.now links.old heads.old 0 }
    ensures { IsLinked (2 ^ bits) hashes.now links.new heads.new (length hashes.now) }
{
    for i in 0..hashes.len() {
        let bucket = bucket_of(hashes[i], bits);
        links[i] = heads[bucket];
        heads[bucket] = i + 1;
    }
}

/// Lets the chain of the member at a position pass it over: what goes to its place goes on to its
/// link. The place is a hole then, which is answered.
pub fn pass_over(
    bits: u32,
    holes: &[usize],
    position: usize,
    hashes: &[u64],
    links: &mut [usize],
    heads: &mut [usize],
) -> usize
    requires bits { bits < 64 }
    requires holes { AreHoles 0 holes.now (length hashes.now) }
    requires within { position < length (without holes.now hashes.now) }
    requires chained { IsChained (2 ^ bits) holes.now hashes.now links.old heads.old }
    ensures hole { result + 1 ≡ raised_by holes.now (position + 1) }
    ensures chained { IsChained (2 ^ bits) (holes.now ++ position ∷ []) hashes.now links.new heads.new }
{
    let place = raise(holes, position + 1);
    let next = links[place - 1];
    let bucket = bucket_of(hashes[place - 1], bits);
    let mut above = heads[bucket];
    if above == place {
        heads[bucket] = next;
        return place - 1;
    }
    while links[above - 1] != place {
        above = links[above - 1];
    }
    links[above - 1] = next;
    place - 1
}
