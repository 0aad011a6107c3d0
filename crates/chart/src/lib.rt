// The chart of an ocean for a navigator, as text. What is put on the page is the definition's text.
// Follows docs/RULES.md, "Domains" and "Grid".
#![tactic(auto)]

pub mod inner;

pub use inner::{Ocean, put_chart};
