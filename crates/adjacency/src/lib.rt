// Pattern tables: their checks, the list of a pattern and a direction, and weights.
// Follows docs/RULES.md, "Tables"; stands for `GlobalStats`, `PatternWeight` and `PatternTable` of the Rust.
// Main property: an accepted table's lists are not empty, ascending, below P, and agree both ways.
#![tactic(auto)]

ghost use Rattle.std.specs.Prelude.{◌≡◌};
ghost use Rattle.refusals.specs.Refusals.{number_of};
ghost use Rattle.adjacency.specs.Tables.{table};
ghost use Rattle.adjacency.specs.Checks.{table_refusal};
ghost use Rattle.adjacency.specs.Lookup.{list_refusal, list_answer};

use inner::Table;
use refusals::Refusal;

pub mod inner;

// Whether a table with its weights is accepted, or the first refusal.
pub fn check_table(
    count: usize,
    weights: &[u32],
    offsets: &[u32],
    ids: &[u8],
) -> Result<(), Refusal>
    ensures { number_of result ≡ table_refusal (table count offsets.now ids.now) weights.now }
{
    let table = Table {
        count,
        offsets,
        ids,
    };
    if inner::bad_count(count) {
        return Err(Refusal::BadCount);
    }
    if weights.len() != count || table.bad_offsets() {
        return Err(Refusal::BadLength);
    }
    if inner::over_weight(weights) {
        return Err(Refusal::BadWeights);
    }
    if table.bad_list() {
        return Err(Refusal::BadList);
    }
    if table.disagrees() {
        return Err(Refusal::Disagree);
    }
    Ok(())
}

// Public calls name the three slices of a table one by one, as they always did: a `Table` would ask its caller to make one.
// The list of a pattern and a direction: that part of the ids, or an empty part where the call is refused.
pub fn list<'a>(
    count: usize,
    offsets: &[u32],
    ids: &'a [u8],
    pattern: usize,
    direction: usize,
) -> &'a [u8]
    ensures { result.now ≡ list_answer (table count offsets.now ids.now) pattern direction }
{
    match list_refusal(count, offsets, ids, pattern, direction) {
        Ok(()) => {
            let table = Table {
                count,
                offsets,
                ids,
            };
            table.list_of(pattern, direction)
        }
        Err(_) => &ids[0..0],
    }
}

// Beside `list`, with the same arguments: whether it is answered, or why not.
pub fn list_refusal(
    count: usize,
    offsets: &[u32],
    ids: &[u8],
    pattern: usize,
    direction: usize,
) -> Result<(), Refusal>
    ensures { number_of result ≡ list_refusal (table count offsets.now ids.now) pattern direction }
{
    let table = Table {
        count,
        offsets,
        ids,
    };
    if inner::bad_count(count) {
        return Err(Refusal::BadCount);
    }
    if table.bad_offsets() {
        return Err(Refusal::BadLength);
    }
    if table.bad_list() {
        return Err(Refusal::BadList);
    }
    if table.disagrees() {
        return Err(Refusal::Disagree);
    }
    if 3 < direction {
        return Err(Refusal::BadDirection);
    }
    if count <= pattern {
        return Err(Refusal::BadPattern);
    }
    Ok(())
}
