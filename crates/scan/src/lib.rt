// A sheet judged byte by byte, so that bytes are told to be a sheet or none though only some of them are held at a time.
// Follows docs/RULES.md, "Sheet". Main property: bytes, read in any pieces, come out as a sheet exactly where the whole of them is one.
#![tactic(auto)]

pub mod inner;
