// Domain words: bit p of a cell's word is set where pattern p is possible.
// Follows docs/RULES.md, "Domains". Main property: count of ones is how many patterns are in a word, trailing zeros its least one.
// Only this crate shifts a word or counts its ones, but for the sums of fours of `adjacency`: a wider domain is paid for here and there.

#![tactic(auto)]

pub mod inner;
