//! What the programs `refusals`, `refusals_paths` and `refusals_commands` have in common: what ends
//! them, what they tell, the texts that they read and what they make documents of.
#![tactic(auto)]

mod fault;
mod given;
mod telling;
mod texts;
mod words;

pub use fault::Fault;
pub use given::{Given, prepare};
pub use telling::{say, say_again, say_bytes, say_call, say_kept, say_made, say_right};
pub use texts::{read, text_of};
pub use words::word;
