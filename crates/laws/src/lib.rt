#![tactic(auto)]

// What a skipper relies on: the laws of the run, and the worked cases. No code.
// Follows docs/RULES.md, "Run". Main property: each end means exactly what the rules say, and appended words or more forbids only narrow an ocean.
