// What a sheet's bytes say, in lent slices. Follows docs/RULES.md, "Sheet".
ghost use Rattle.std.specs.Prelude.{true, ◌≡◌, ◌+◌, ◌≤◌, ◌<◌, length};
ghost use Rattle.std.proofs.lemmas.List.Edits.{sets};
ghost use Rattle.layout.specs.Tables.{offsets_from, joined};
ghost use Rattle.layout.specs.Reading.{count_in, lists_fit, lists_in, well_formed, sheet_in};
ghost use Rattle.layout.specs.Lending.{lent, filled, Roomy};

use crate::inner::shape::{count_of, forbids_of, lists_of, weights_of};
use records::inner::{lay_bytes, read_numbers};

// ---- lists

// Where each list starts, and where the last ends.
fn read_offsets(payload: &[u8], lists: usize, offsets: &mut [u32])
    requires { (lists_fit lists payload.now ≡ true) × (lists ≤ 256) × (lists + 1 ≤ length offsets.old) }
    ensures { offsets.new ≡ sets offsets.old 0 (offsets_from 0 (lists_in lists payload.now)) }
{
    let mut at = 0;
    let mut ids: usize = 0;
    for k in 0..lists {
        offsets[k] = ids as u32;
        let size = usize::from(payload[at]);
        ids += size;
        at += 1 + size;
    }
    offsets[lists] = ids as u32;
}

// The lists one after the other.
fn read_ids(payload: &[u8], lists: usize, ids: &mut [u8])
    requires { (lists_fit lists payload.now ≡ true) × (length (joined (lists_in lists payload.now)) ≤ length ids.old) }
    ensures { ids.new ≡ sets ids.old 0 (joined (lists_in lists payload.now)) }
{
    let mut at = 0;
    let mut place = 0;
    for _ in 0..lists {
        let start = at + 1;
        let end = start + usize::from(payload[at]);
        place = lay_bytes(&payload[start..end], ids, place);
        at = end;
    }
}

// ---- the whole

// The sheet at the front of slices that have room for it.
pub fn fill(
    sheet: &[u8],
    weights: &mut [u32],
    offsets: &mut [u32],
    ids: &mut [u8],
    forbids: &mut [u32],
)
    requires { (well_formed sheet.now ≡ true) × (count_in sheet.now ≤ 64) × Roomy (sheet_in sheet.now) (lent weights.old offsets.old ids.old forbids.old) }
    ensures { lent weights.new offsets.new ids.new forbids.new
        ≡ filled (sheet_in sheet.now) (lent weights.old offsets.old ids.old forbids.old) }
{
    let lists = 4 * count_of(sheet);
    read_numbers(weights_of(sheet), weights);
    read_offsets(lists_of(sheet), lists, offsets);
    read_ids(lists_of(sheet), lists, ids);
    read_numbers(forbids_of(sheet), forbids);
}
