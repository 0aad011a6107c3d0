// Propagation: support counts, removals and the work list.
// Follows docs/RULES.md, "Propagation"; stands for `NumWaysToBecomePattern`, `WaveCell` and `Propagator` of the Rust.
// Main property: the code is the work list of `consistency`, with what is kept beside the domains brought forward at each removal.
#![tactic(auto)]

pub mod inner;
