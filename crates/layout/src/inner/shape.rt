// Whether bytes are a sheet, and where its records are. Follows docs/RULES.md, "Sheet".
ghost use Rattle.std.specs.Prelude.{true, ◌≡◌, ◌<◌, drop};
ghost use Rattle.records.specs.Numbers.{numbers_in};
ghost use Rattle.records.specs.Records.{payload_of};
ghost use Rattle.layout.specs.Reading.{from_lists, from_grid, from_forbids, Frames, framed, count_in, weights_fit, lists_fit, kinds_fit, forbids_fit, well_formed};

use records::inner::{begins, payload_of, rest_of, u16_at};

// ---- the records

// Whether the four records stand one after the other, and nothing after them.
fn framed(sheet: &[u8]) -> bool
    ensures { result ≡ framed sheet.now }
{
    if !begins(sheet, 1) {
        return false;
    }
    let lists = rest_of(sheet);
    if !begins(lists, 2) {
        return false;
    }
    let grid = rest_of(lists);
    if !begins(grid, 3) {
        return false;
    }
    let forbids = rest_of(grid);
    if !begins(forbids, 4) {
        return false;
    }
    rest_of(forbids).is_empty()
}

// The weights of the first record, past P.
pub fn weights_of(sheet: &[u8]) -> &[u8]
    requires { Frames sheet.now × (weights_fit (payload_of sheet.now) ≡ true) }
    ensures { result.now ≡ drop 2 (payload_of sheet.now) }
{
    let payload = payload_of(sheet);
    &payload[2..]
}

// What the second record holds.
pub fn lists_of(sheet: &[u8]) -> &[u8]
    requires { Frames sheet.now }
    ensures { result.now ≡ payload_of (from_lists sheet.now) }
{
    payload_of(rest_of(sheet))
}

// What the third holds.
pub fn grid_of(sheet: &[u8]) -> &[u8]
    requires { Frames sheet.now }
    ensures { result.now ≡ payload_of (from_grid sheet.now) }
{
    payload_of(rest_of(rest_of(sheet)))
}

// What the fourth holds.
pub fn forbids_of(sheet: &[u8]) -> &[u8]
    requires { Frames sheet.now }
    ensures { result.now ≡ payload_of (from_forbids sheet.now) }
{
    payload_of(rest_of(rest_of(rest_of(sheet))))
}

// ---- what they hold

// Whether a payload is P and as many weights.
fn weights_fit(payload: &[u8]) -> bool
    ensures { result ≡ weights_fit payload.now }
{
    if payload.len() < 2 {
        return false;
    }
    payload.len() == 2 + 2 * u16_at(payload, 0)
}

// Whether a payload is so many lists.
fn lists_fit(lists: usize, payload: &[u8]) -> bool
    ensures { result ≡ lists_fit lists payload.now }
{
    let mut at = 0;
    for _ in 0..lists {
        if at == payload.len() {
            return false;
        }
        let size = usize::from(payload[at]);
        if payload.len() - at <= size {
            return false;
        }
        at += 1 + size;
    }
    at == payload.len()
}

// Whether every third number of a payload is 0 or 1.
fn kinds_fit(payload: &[u8]) -> bool
    ensures { result ≡ kinds_fit (numbers_in payload.now) }
{
    for forbid in payload.chunks_exact(6) {
        if 1 < u16_at(forbid, 4) {
            return false;
        }
    }
    true
}

// Whether a payload is at most 4,096 forbids.
fn forbids_fit(payload: &[u8]) -> bool
    ensures { result ≡ forbids_fit payload.now }
{
    if payload.len() % 6 != 0 {
        return false;
    }
    if 24576 < payload.len() {
        return false;
    }
    kinds_fit(payload)
}

// Whether the bytes are a sheet.
pub fn well_formed(sheet: &[u8]) -> bool
    ensures { result ≡ well_formed sheet.now }
{
    if !framed(sheet) {
        return false;
    }
    if !weights_fit(payload_of(sheet)) {
        return false;
    }
    if !lists_fit(4 * count_of(sheet), lists_of(sheet)) {
        return false;
    }
    if grid_of(sheet).len() != 6 {
        return false;
    }
    forbids_fit(forbids_of(sheet))
}

// P, which begins the first record.
pub fn count_of(sheet: &[u8]) -> usize
    requires { Frames sheet.now × (weights_fit (payload_of sheet.now) ≡ true) }
    ensures { (result ≡ count_in sheet.now) × (result < 65536) }
{
    u16_at(payload_of(sheet), 0)
}
