// Tables and their lists, for C. Follows docs/RULES.md, "Tables" and "Refusals".
ghost use Rattle.std.specs.Prelude.{◌≡◌};
ghost use Rattle.adjacency.specs.Tables.{table};
ghost use Rattle.adjacency.specs.Checks.{table_refusal};
ghost use Rattle.adjacency.specs.Lookup.{list_refusal};
ghost use Rattle.ocean_c.specs.Parts.{list_coded};

use crate::codes::refused;
use adjacency::inner::Table;

// Whether a table with its weights is accepted, or the first refusal.
#[unsafe(no_mangle)]
pub extern "C" fn murghidossu_check_table(
    count: usize,
    weights: &[u32],
    offsets: &[u32],
    ids: &[u8],
) -> u64
    ensures { result ≡ table_refusal (table count offsets.now ids.now) weights.now }
{
    refusals::inner::number_of(adjacency::check_table(count, weights, offsets, ids)) as u64
}

// Where a list that is not refused lies among the ids.
fn part_of(count: usize, offsets: &[u32], ids: &[u8], pattern: usize, direction: usize) -> u64
    requires { list_refusal (table count offsets.now ids.now) pattern direction ≡ 0 }
    ensures { result ≡ list_coded (table count offsets.now ids.now) pattern direction }
{
    let table = Table {
        count,
        offsets,
        ids,
    };
    let list = table.list_of(pattern, direction);
    let start = offsets[4 * pattern + direction];
    256 * (list.len() as u64) + 4294967296 * (start as u64)
}

// The list of a pattern and a direction: how long it is and where it begins among the ids.
#[unsafe(no_mangle)]
pub extern "C" fn murghidossu_list(
    count: usize,
    offsets: &[u32],
    ids: &[u8],
    pattern: usize,
    direction: usize,
) -> u64
    ensures { result ≡ list_coded (table count offsets.now ids.now) pattern direction }
{
    match adjacency::list_refusal(count, offsets, ids, pattern, direction) {
        Ok(()) => part_of(count, offsets, ids, pattern, direction),
        Err(refusal) => refused(refusal),
    }
}

// Beside `murghidossu_list`, with the same arguments: whether it is answered, or why not.
#[unsafe(no_mangle)]
pub extern "C" fn murghidossu_list_refusal(
    count: usize,
    offsets: &[u32],
    ids: &[u8],
    pattern: usize,
    direction: usize,
) -> u64
    ensures { result ≡ list_refusal (table count offsets.now ids.now) pattern direction }
{
    refusals::inner::number_of(adjacency::list_refusal(
        count, offsets, ids, pattern, direction,
    )) as u64
}
