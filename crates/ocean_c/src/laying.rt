// Propagation and runs, for C. Follows docs/RULES.md, "Propagation" and "Run".
ghost use Rattle.std.specs.Prelude.{◌≡◌};
ghost use Rattle.adjacency.specs.Tables.{table};
ghost use Rattle.grid.specs.Grid.{grid};
ghost use Rattle.starting.specs.Propagate.{propagate_of};
ghost use Rattle.course.specs.Run.{given};
ghost use Rattle.course.specs.Called.{memory, called_numbers};
ghost use Rattle.sheet.specs.Result.{result_called};
ghost use Rattle.ocean_c.specs.Returned.{settled, settled_of, returned, returned_of, result_returned, result_returned_of};

use crate::codes::code_of;

// Propagates starting domains: case 0 consistent, case 1 a contradiction.
#[unsafe(no_mangle)]
pub extern "C" fn murghidossu_propagate(
    count: usize,
    offsets: &[u32],
    ids: &[u8],
    width: usize,
    height: usize,
    mode: usize,
    domains: &mut [u64],
    counts: &mut [u8],
    pending: &mut [u32],
) -> u64
    ensures { settled result domains.new counts.new pending.new
        ≡ settled_of (propagate_of (table count offsets.now ids.now) (grid width height mode)
        domains.old counts.old pending.old) }
{
    crate::codes::settled(starting::propagate(
        count, offsets, ids, width, height, mode, domains, counts, pending,
    ))
}

// A run, of forbids that are lent as numbers, three for each.
#[unsafe(no_mangle)]
pub extern "C" fn murghidossu_run(
    forbids: &[u32],
    count: usize,
    width: usize,
    height: usize,
    mode: usize,
    weights: &[u32],
    offsets: &[u32],
    ids: &[u8],
    noise: &[u32],
    words: &[u32],
    domains: &mut [u64],
    counts: &mut [u8],
    pending: &mut [u32],
    floats: &mut [f32],
    marks: &mut [u8],
) -> u64
    ensures { returned result (memory domains.new counts.new pending.new floats.new marks.new)
        ≡ returned_of (called_numbers (given (table count offsets.now ids.now) weights.now (grid width height mode) noise.now) forbids.now words.now
        (memory domains.old counts.old pending.old floats.old marks.old)) }
{
    code_of(run::run_numbers(
        forbids, count, width, height, mode, weights, offsets, ids, noise, words, domains, counts,
        pending, floats, marks,
    ))
}

// The same, with the result's record at the front of `out`.
#[unsafe(no_mangle)]
pub extern "C" fn murghidossu_run_result(
    forbids: &[u32],
    count: usize,
    width: usize,
    height: usize,
    mode: usize,
    weights: &[u32],
    offsets: &[u32],
    ids: &[u8],
    noise: &[u32],
    words: &[u32],
    domains: &mut [u64],
    counts: &mut [u8],
    pending: &mut [u32],
    floats: &mut [f32],
    marks: &mut [u8],
    out: &mut [u8],
) -> u64
    ensures { result_returned result (memory domains.new counts.new pending.new floats.new marks.new) out.new
        ≡ result_returned_of (result_called (given (table count offsets.now ids.now) weights.now (grid width height mode) noise.now) forbids.now words.now
        (memory domains.old counts.old pending.old floats.old marks.old) out.old) }
{
    code_of(sheet::run_result(
        forbids, count, width, height, mode, weights, offsets, ids, noise, words, domains, counts,
        pending, floats, marks, out,
    ))
}
