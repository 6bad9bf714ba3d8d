//! Which member of several with one key counts.

/// Which member of several with one key counts.
#[derive(Clone, Copy, Debug, PartialEq, Eq)]
pub enum Repeats {
    First,
    Last,
}
