// A sheet is read into memory that has room for every one of up to 64 patterns. Follows docs/RULES.md, "Programs".
ghost use Rattle.std.specs.Prelude.{cond, List, ◌≡◌, ℕ};
ghost use Rattle.refusals.specs.declared.Refusal.TheVariants.{BadCount, BadSheet};
ghost use Rattle.layout.specs.Lending.{lent};
ghost use Rattle.layout.specs.Reading.{sheet_in};
ghost use Rattle.sheet.specs.Called.{sizes_told, read_outcome, read_at};
ghost use Rattle.bounded.specs.Laid.{sheet_refusal, Held, Reads};

use refusals::Refusal;
use sheet::Measures;

// The refusal of more bytes than a sheet of up to 64 patterns has, by whether they are a sheet.
fn long_refusal(formed: bool) -> Refusal
    ensures { result ≡ cond formed BadCount BadSheet }
{
    if formed {
        return Refusal::BadCount;
    }
    Refusal::BadSheet
}

// Reads the sheet of whose bytes this is held, or refuses it by its own first refusal.
pub(crate) fn read_in(
    sheet: &[u8],
    formed: bool,
    weights: &mut [u32],
    offsets: &mut [u32],
    ids: &mut [u8],
    forbids: &mut [u32],
) -> Result<Measures, Refusal>
    requires { Reads weights.old offsets.old ids.old forbids.old }
    ensures { (b : List ℕ) → Held b sheet.now formed → read_outcome (sizes_told result) (lent weights.new offsets.new ids.new forbids.new)
        ≡ read_at (sheet_refusal b) (sheet_in b) (lent weights.old offsets.old ids.old forbids.old) }
{
    if 90272 < sheet.len() {
        return Err(long_refusal(formed));
    }
    let m = sheet::sizes(sheet)?;
    if 64 < m.count {
        return Err(Refusal::BadCount);
    }
    let count = m.count;
    let starts = 4 * count + 1;
    sheet::read(
        sheet,
        &mut weights[..count],
        &mut offsets[..starts],
        ids,
        forbids,
    )
}
