//! What holds of documents, their prints and what is read of these; a call takes a reference to a
//! document, and a value of a tape too. It goes over values, wants no memory and changes nothing.

pub use sj_tape::laws::{is_proper, prints_alike, prints_spell, reads_back};
