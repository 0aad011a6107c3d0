// A case of a stream: how much of it is kept, the bytes that it is answered, and the words for why no more is. What `replay` does besides is to read and to write.
// Follows docs/RULES.md, "Programs". Main property: what is answered of what is kept is the answer of the whole case (`kept-answered`).
#![tactic(auto)]

pub mod inner;
