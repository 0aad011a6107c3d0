// What the crates above call: the removal of a pattern, the propagation of what is pending, and how work memory starts and ends.
mod num_ways;
mod propagator;
mod start;

pub use num_ways::clear_all_directions;
pub use propagator::{Pile, narrow, propagate, remove};
pub use start::{start_counts, zero_bytes, zero_domains, zero_floats, zero_pending};
