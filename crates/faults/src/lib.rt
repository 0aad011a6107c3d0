// Where a refused sheet is wrong: the first list, the first pair of patterns, or the first forbid.
// Follows docs/RULES.md, "Programs". Main property: a sheet that is refused as 6, 7, 8 or 9 has such a place, and it is the first (`proofs/PlaceLaws.antt`).
#![tactic(auto)]

pub mod inner;
