// What is kept between one byte of a sheet and the next, and what a byte makes of it.
ghost use Rattle.std.specs.Prelude.{◌≡◌, ℕ, ◌<◌, get_or};
ghost use Rattle.scan.specs.Scanning.{passing, listing, within, counted, gridding, forbidding, holding, headed, listed, kind_fits, forbidden, step, start, past, formed, bad};

// Where in a sheet the next byte stands, and what has to be known of the bytes before it.
#[derive(Clone, Copy)]
pub enum Scan {
    // Nowhere: no sheet begins with the bytes so far.
    Bad,
    // In the first six of a record: its kind, the lists to come, how many of the six were read, and the length as far as it is read.
    Head(usize, usize, usize, usize),
    // At the low byte of P, which begins a payload of so many bytes.
    Count(usize),
    // At the high byte of P: the same, and the low byte.
    High(usize, u8),
    // In bytes that are passed: how many come after this one, and then the kind of a record and the lists to come.
    Pass(usize, usize, usize),
    // At the length of a list: how many bytes of the record are left, and how many lists come after this one.
    Lists(usize, usize),
    // At an id: how many of its list come after this one, and then how many bytes and lists are left.
    Ids(usize, usize, usize),
    // In the forbids: how many of their bytes are left.
    Forbids(usize),
}

// ---- what comes next

// So many bytes to pass, and then a record.
fn passing(left: usize, kind: usize, lists: usize) -> Scan
    ensures { result ≡ passing left kind lists }
{
    if left == 0 {
        return Scan::Head(kind, lists, 0, 0);
    }
    Scan::Pass(left - 1, kind, lists)
}

// So many lists in so many bytes, and then the grid's record.
fn listing(left: usize, lists: usize) -> Scan
    ensures { result ≡ listing left lists }
{
    if lists != 0 {
        return Scan::Lists(left, lists - 1);
    }
    if left != 0 {
        return Scan::Bad;
    }
    Scan::Head(3, 0, 0, 0)
}

// So many ids, and then so many lists in so many bytes.
fn within(ids: usize, left: usize, lists: usize) -> Scan
    ensures { result ≡ within ids left lists }
{
    if ids == 0 {
        return listing(left, lists);
    }
    Scan::Ids(ids - 1, left, lists)
}

// As many weights as P says, in a payload of so many bytes.
fn counted(left: usize, count: usize) -> Scan
    requires { count < 65536 }
    ensures { result ≡ counted left count }
{
    if left != 2 + 2 * count {
        return Scan::Bad;
    }
    passing(2 * count, 2, 4 * count)
}

// The grid, in a payload of so many bytes.
fn gridding(left: usize) -> Scan
    ensures { result ≡ gridding left }
{
    if left != 6 {
        return Scan::Bad;
    }
    passing(6, 4, 0)
}

// The forbids, in a payload of so many bytes.
fn forbidding(left: usize) -> Scan
    ensures { result ≡ forbidding left }
{
    if left % 6 != 0 {
        return Scan::Bad;
    }
    if 24576 < left {
        return Scan::Bad;
    }
    Scan::Forbids(left)
}

// The payload of the record of a kind, of so many bytes. A kind is the number that stands in the sheet (docs/RULES.md), which `headed` holds to a byte.
fn holding(kind: usize, lists: usize, left: usize) -> Scan
    ensures { result ≡ holding kind lists left }
{
    match kind {
        1 => Scan::Count(left),
        2 => listing(left, lists),
        3 => gridding(left),
        _ => forbidding(left),
    }
}

// ---- what a byte makes of it

// A byte of a record's first six.
fn headed(kind: usize, lists: usize, at: usize, size: usize, x: usize) -> Scan
    requires { x < 256 }
    ensures { result ≡ headed kind lists at size x }
{
    if at < 4 {
        return Scan::Head(kind, lists, at + 1, size / 256 + 16777216 * x);
    }
    if at == 4 {
        if x != kind {
            return Scan::Bad;
        }
        return Scan::Head(kind, lists, 5, size);
    }
    if x != 0 {
        return Scan::Bad;
    }
    if size < 2 {
        return Scan::Bad;
    }
    holding(kind, lists, size - 2)
}

// The length of a list.
fn listed(left: usize, lists: usize, x: usize) -> Scan
    ensures { result ≡ listed left lists x }
{
    if left <= x {
        return Scan::Bad;
    }
    within(x, left - 1 - x, lists)
}

// Whether a byte of a forbid may stand in its place.
fn kind_fits(place: usize, x: usize) -> bool
    ensures { result ≡ kind_fits place x }
{
    match place {
        2 => x <= 1,
        1 => x == 0,
        _ => true,
    }
}

// A byte of the forbids.
fn forbidden(left: usize, x: usize) -> Scan
    ensures { result ≡ forbidden left x }
{
    if left == 0 {
        return Scan::Bad;
    }
    if !kind_fits(left % 6, x) {
        return Scan::Bad;
    }
    Scan::Forbids(left - 1)
}

// Any byte.
fn step(x: u8, state: Scan) -> Scan
    ensures { result ≡ step x state }
{
    match state {
        Scan::Bad => Scan::Bad,
        Scan::Head(kind, lists, at, size) => headed(kind, lists, at, size, usize::from(x)),
        Scan::Count(left) => Scan::High(left, x),
        Scan::High(left, low) => counted(left, usize::from(u16::from_le_bytes([low, x]))),
        Scan::Pass(left, kind, lists) => passing(left, kind, lists),
        Scan::Lists(left, lists) => listed(left, lists, usize::from(x)),
        Scan::Ids(ids, left, lists) => within(ids, left, lists),
        Scan::Forbids(left) => forbidden(left, usize::from(x)),
    }
}

// ---- for programs

// Before the first byte.
pub fn start() -> Scan
    ensures { result ≡ start }
{
    Scan::Head(1, 0, 0, 0)
}

// After these bytes too. That a byte is below 256 is said for those who put pieces together.
pub fn past(state: Scan, bytes: &[u8]) -> Scan
    ensures { (result ≡ past state bytes.now) × ((k : ℕ) → get_or bytes.now k 0 < 256) }
{
    let mut reached = state;
    for byte in bytes {
        reached = step(*byte, reached);
    }
    reached
}

// Whether the bytes so far are a sheet.
pub fn formed(state: Scan) -> bool
    ensures { result ≡ formed state }
{
    match state {
        Scan::Forbids(left) => left == 0,
        _ => false,
    }
}

// Whether they are known to be none, whatever follows.
pub fn bad(state: Scan) -> bool
    ensures { result ≡ bad state }
{
    matches!(state, Scan::Bad)
}
