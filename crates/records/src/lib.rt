// Records of bytes: little-endian numbers, and a length, a kind and a payload.
// Follows docs/RULES.md, "Sheet". Main property: what is written is read back, and what is read is written back.
#![tactic(auto)]

pub mod inner;
