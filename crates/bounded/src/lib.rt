// A sheet laid in bounded memory: what the programs share. They take up to 4,096 cells times patterns, so that all memory is of fixed size.
// Follows docs/RULES.md, "Programs". Main property: a case comes to what `laid_of` (specs/Laid.antt) says, and both programs are told so here.
#![tactic(auto)]

pub mod inner;
