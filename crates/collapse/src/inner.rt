// What the crates above call: the start, a forbid applied, all turns, and the end.
mod laying;
mod start;
mod turns;

pub use laying::lay;
pub use start::{begin_state, finish};
pub use turns::collapse;
