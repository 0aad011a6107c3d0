#![tactic(auto)]

// The run as a definition: the start, the forbids, then observe and choose until it ends; the states that it reaches, and what a call comes to. No code.
// Follows docs/RULES.md, "Run" and "Refusals". Main property: each state is what the work list leaves of full domains less all that was asked to go (`proofs/StateLaws.antt`).
