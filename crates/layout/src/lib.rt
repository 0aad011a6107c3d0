// How a sheet lies in bytes: which bytes are a sheet, what they say, and the bytes of what is to be said.
// Follows docs/RULES.md, "Sheet". Main property: a sheet is the bytes of what it says, and says what its bytes were written from.
#![tactic(auto)]

pub mod inner;
