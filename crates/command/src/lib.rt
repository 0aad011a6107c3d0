// What a person types and is told: the arguments of `ocean`, the files that they name, numbers in decimal, and a sentence for what is wrong.
// Follows docs/RULES.md, "Refusals" and "Programs".
#![tactic(auto)]

pub mod arguments;
pub mod files;
mod places;
pub mod sentences;
