#![tactic(auto)]

// Arc consistency: what propagation is to leave, the work list in its order, and the theorem that one leaves the other. No code.
// Follows docs/RULES.md, "Propagation". Main property: `settled`, the work list leaves the greatest consistent subset of what it started from,
// or a contradiction exactly where that has an empty cell.
