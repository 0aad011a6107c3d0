//! The choices of a run, told one by one to programs of other languages, by C's calling convention: the archive for the comparison with the Rust (oracle/)
//! and nothing else. `trace_c` makes them.
#![tactic(auto)]

// What `trace_c` tells, with the same promise: the call is safe and ends.
#[unsafe(no_mangle)]
pub extern "C" fn murghidossu_trace(
    forbids: &[u32],
    count: usize,
    width: usize,
    height: usize,
    mode: usize,
    weights: &[u32],
    offsets: &[u32],
    ids: &[u8],
    noise: &[u32],
    words: &[u32],
    places: &mut [u32],
    entropies: &mut [f32],
    domains: &mut [u64],
    counts: &mut [u8],
    pending: &mut [u32],
    floats: &mut [f32],
    marks: &mut [u8],
) -> usize {
    trace_c::murghidossu_trace(
        forbids, count, width, height, mode, weights, offsets, ids, noise, words, places,
        entropies, domains, counts, pending, floats, marks,
    )
}
