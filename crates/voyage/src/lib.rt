//! What a person asks for, carried out: files read, an ocean laid and shown, or one sentence that says why not. `ocean` and `rehearsal` share it.
//! Follows docs/RULES.md, "Programs". Thin: what matters is in the libraries below; of what is read from files and written, no contract can speak.
#![tactic(auto)]

pub mod inner;
