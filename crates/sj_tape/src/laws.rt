//! What holds of values, their prints and what is read of these: of values of tapes, and of documents
//! by a reference to one. A call goes over values, wants no memory and changes nothing.

pub use sj_print::laws::{is_proper, prints_alike, prints_spell, reads_back};
