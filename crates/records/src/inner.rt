// Records read from bytes and written to them, without checks but for `begins`.
ghost use Rattle.std.specs.Prelude.{◌≡◌, [], ◌∷◌, ℕ, ◌+◌, ◌*◌, ◌≤◌, ◌<◌, length, get_or};
ghost use Rattle.std.proofs.lemmas.List.Edits.{sets};
ghost use Rattle.records.specs.Numbers.{u16, u32, u64, u16s, u64s, u16At, u32_at, numbers_in};
ghost use Rattle.records.specs.Records.{head_of, Framed, begins, payload_of, rest_of};
ghost use Rattle.records.specs.Laying.{pen, laid};

// ---- reading

// The number of the two bytes from `at` on.
pub fn u16_at(bytes: &[u8], at: usize) -> usize
    requires { at + 2 ≤ length bytes.now }
    ensures { (result ≡ u16At bytes.now at) × (result < 65536) }
{
    usize::from(u16::from_le_bytes([bytes[at], bytes[at + 1]]))
}

// The number of the four bytes from `at` on.
pub fn u32_at(bytes: &[u8], at: usize) -> usize
    requires { at + 4 ≤ length bytes.now }
    ensures { (result ≡ u32_at bytes.now at) × (result < 4294967296) }
{
    u32::from_le_bytes([bytes[at], bytes[at + 1], bytes[at + 2], bytes[at + 3]]) as usize
}

// Whether the bytes begin with a record of a kind; lengths are compared by what is left, so that no sum can wrap.
pub fn begins(bytes: &[u8], kind: usize) -> bool
    ensures { result ≡ begins kind bytes.now }
{
    if bytes.len() < 6 {
        return false;
    }
    if u16_at(bytes, 4) != kind {
        return false;
    }
    let size = u32_at(bytes, 0);
    if size < 2 {
        return false;
    }
    size <= bytes.len() - 4
}

// What the record at the front holds.
pub fn payload_of(bytes: &[u8]) -> &[u8]
    requires { Framed bytes.now }
    ensures { result.now ≡ payload_of bytes.now }
{
    let end = 4 + u32_at(bytes, 0);
    &bytes[6..end]
}

// What follows the record at the front.
pub fn rest_of(bytes: &[u8]) -> &[u8]
    requires { Framed bytes.now }
    ensures { result.now ≡ rest_of bytes.now }
{
    let end = 4 + u32_at(bytes, 0);
    &bytes[end..]
}

// The numbers of two bytes each, at the front of `out`.
pub fn read_numbers(bytes: &[u8], out: &mut [u32])
    requires { length bytes.now ≤ 2 * length out.old }
    ensures { out.new ≡ sets out.old 0 (numbers_in bytes.now) }
{
    for i in 0..bytes.len() / 2 {
        out[i] = u16_at(bytes, 2 * i) as u32;
    }
}

// ---- writing: each answers the place past what it wrote

// One byte.
pub fn lay_byte(number: usize, out: &mut [u8], at: usize) -> usize
    requires { (number < 256) × (at + 1 ≤ length out.old) }
    ensures { pen out.new result ≡ laid (number ∷ []) (pen out.old at) }
{
    out[at] = number as u8;
    at + 1
}

// A number as two bytes.
pub fn lay_u16(number: usize, out: &mut [u8], at: usize) -> usize
    requires { (number < 65536) × (at + 2 ≤ length out.old) }
    ensures { pen out.new result ≡ laid (u16 number) (pen out.old at) }
{
    lay_bytes(&(number as u16).to_le_bytes(), out, at)
}

// The head of a record whose payload has `size` bytes.
pub fn lay_head(kind: usize, size: usize, out: &mut [u8], at: usize) -> usize
    requires { (kind < 65536) × (size < 4294967294) × (at + 6 ≤ length out.old) }
    ensures { pen out.new result ≡ laid (head_of kind size) (pen out.old at) }
{
    let place = lay_bytes(&(2 + size as u32).to_le_bytes(), out, at);
    lay_u16(kind, out, place)
}

// Bytes as they are, one by one: the library's copy would have the archive for C call `memmove` (include/murghidossu.h).
pub fn lay_bytes(bytes: &[u8], out: &mut [u8], at: usize) -> usize
    requires { at + length bytes.now ≤ length out.old }
    ensures { pen out.new result ≡ laid bytes.now (pen out.old at) }
{
    let mut place = at;
    for byte in bytes {
        place = lay_byte(usize::from(*byte), out, place);
    }
    place
}

// Numbers as two bytes each.
pub fn lay_numbers(numbers: &[u32], out: &mut [u8], at: usize) -> usize
    requires { ((k : ℕ) → k < length numbers.now → get_or numbers.now k 0 < 65536) × (at + 2 * length numbers.now ≤ length out.old) }
    ensures { pen out.new result ≡ laid (u16s numbers.now) (pen out.old at) }
{
    let mut place = at;
    for number in numbers {
        place = lay_u16(*number as usize, out, place);
    }
    place
}

// Words as eight bytes each.
pub fn lay_words(words: &[u64], out: &mut [u8], at: usize) -> usize
    requires { at + 8 * length words.now ≤ length out.old }
    ensures { pen out.new result ≡ laid (u64s words.now) (pen out.old at) }
{
    let mut place = at;
    for word in words {
        place = lay_bytes(&word.to_le_bytes(), out, place);
    }
    place
}
