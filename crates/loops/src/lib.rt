// What a loop computes: definitions and laws alone, for every crate above.

#![tactic(auto)]
