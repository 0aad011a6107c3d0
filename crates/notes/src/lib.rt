// What is kept beside the domains: a running value and a note for each cell, and the observer's marks of blocks.
// Follows docs/RULES.md, "Propagation" and "Run"; stands for `EntropyWithNoise` and `WaveCellStats` of the Rust.
// Main property: a note is replaced within one propagation only by a strictly lesser entropy, and every change marks its block.
#![tactic(auto)]

pub mod inner;
