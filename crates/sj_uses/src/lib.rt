//! Callers of the library whose contracts rest on its own. Copy one as a start of yours.
#![tactic(auto)]

pub mod changes;
pub mod counts;
pub mod fleet;
pub mod merging;
pub mod messages;
pub mod patch;
pub mod patching;
pub mod router;
pub mod settings;
pub mod typed;
