//! What is done to maps, in cases with names.

use crate::Keys;
use crate::Keys::{Numbered, OneHash};

/// What is done to a map that stays, again and again.
#[derive(Clone, Copy, Debug)]
pub enum Kept {
    /// Another map is filled with its keys.
    Fill,
    /// Each key is looked up.
    Find,
    /// As many keys are looked up that are not there.
    Miss,
    /// Each member is seen.
    Walk,
    /// The last but one is removed and the last is popped. Both come back.
    Ends,
    /// A member without a pattern is removed, and comes back last.
    Turn,
    /// The first key is looked up.
    First,
    /// The first key is looked up, and six of the middle were removed before.
    FirstOfThinned,
}

/// What is removed by its key of a map that is emptied. What is left is popped.
#[derive(Clone, Copy, Debug)]
pub enum Removed {
    Nothing,
    OneOfTheMiddle,
    /// Each member, the first of those that are left.
    Front,
    /// The first of those that are left, with a pop behind each.
    FrontWithPops,
    /// Each member, one in the middle of those that are left.
    Middle,
    /// One in the middle of those that are left, with a pop behind each.
    MiddleWithPops,
}

impl Removed {
    pub fn has_pops(self) -> bool {
        matches!(self, Removed::FrontWithPops | Removed::MiddleWithPops)
    }
}

#[derive(Clone, Copy, Debug)]
pub enum Work {
    Kept(Kept),
    Emptied(Removed),
    /// The map is taken apart.
    Taken,
}

/// A case's name, the keys of its map, and what is done to it.
pub type Case = (&'static str, Keys, Work);

pub const CASES: [Case; 20] = [
    ("fill", Numbered, Work::Kept(Kept::Fill)),
    ("find", Numbered, Work::Kept(Kept::Find)),
    ("miss", Numbered, Work::Kept(Kept::Miss)),
    ("walk", Numbered, Work::Kept(Kept::Walk)),
    ("pop", Numbered, Work::Emptied(Removed::Nothing)),
    ("take", Numbered, Work::Taken),
    ("drain", Numbered, Work::Emptied(Removed::OneOfTheMiddle)),
    ("front", Numbered, Work::Emptied(Removed::Front)),
    (
        "front_pops",
        Numbered,
        Work::Emptied(Removed::FrontWithPops),
    ),
    ("middle", Numbered, Work::Emptied(Removed::Middle)),
    (
        "middle_pops",
        Numbered,
        Work::Emptied(Removed::MiddleWithPops),
    ),
    ("ends", Numbered, Work::Kept(Kept::Ends)),
    ("turn", Numbered, Work::Kept(Kept::Turn)),
    ("fill_alike", OneHash, Work::Kept(Kept::Fill)),
    ("alike_whole", OneHash, Work::Kept(Kept::First)),
    ("alike", OneHash, Work::Kept(Kept::FirstOfThinned)),
    ("front_alike", OneHash, Work::Emptied(Removed::Front)),
    (
        "front_pops_alike",
        OneHash,
        Work::Emptied(Removed::FrontWithPops),
    ),
    ("middle_alike", OneHash, Work::Emptied(Removed::Middle)),
    (
        "middle_pops_alike",
        OneHash,
        Work::Emptied(Removed::MiddleWithPops),
    ),
];

/// The case with that name.
pub fn named(name: &str) -> Option<Case> {
    for case in CASES {
        if case.0 == name {
            return Some(case);
        }
    }
    None
}
