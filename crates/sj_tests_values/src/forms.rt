//! Tests that are one for both forms: each makes its calls on owned texts, and then on borrowed.

mod copied;
mod edits;
mod numbers;
mod parts;
mod prints;
mod repeats;
mod scalars;

/// Documents of each kind.
pub const DOCUMENTS: [&str; 7] = [
    "null",
    "\"a\\u0041\\\"\"",
    "[-5,5,0,-9223372036854775809,18446744073709551616]",
    "{\"snot\":{\"foo\":[1,2,3]},\"badger\":true}",
    "[[],{},[{}],{\"a\":[]}]",
    "{\"a\":null,\"\":{\"\":\"\"}}",
    "[\"\\ud83d\\ude00\",\"\u{e9}\"]",
];
