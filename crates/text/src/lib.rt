// Text put on a lent page: bytes one after the other from a place on. What does not fit is left out.
// Main property: each call puts exactly the text that its definition names, so texts put in a row are one text (`put-append`),
// and a text that fits stands there whole (`put-fits`).
#![tactic(auto)]

ghost use Rattle.std.specs.Prelude.{◌≡◌, ◌∷◌, [], ◌+◌, ◌<◌, length, take, replicate};
ghost use Rattle.text.specs.Pages.{page, line, page_of, Puts};
ghost use Rattle.text.specs.Numbers.{decimal, aligned, padded};

// A lent page, and the place where the next byte goes.
#[derive(Drop)]
pub struct Page<'a> {
    out: &'a mut [u8],
    at: usize,
}

// The sign of a digit.
fn digit(d: usize) -> u8
    requires { d < 10 }
    ensures { result ≡ 48 + d }
{
    b'0' + d as u8
}

// How many digits a number has.
#[tactic(auto, using(crate::proofs::NumberLaws::in_decimal))]
fn digit_count(n: usize) -> usize
    ensures { result ≡ length (decimal n) }
{
    if n < 10 { 1 } else { digit_count(n / 10) + 1 }
}

impl<'a> Page<'a> {
    // A page of what is lent, from a place on.
    pub fn new(out: &'a mut [u8], at: usize) -> Page<'a>
        ensures same { result.out.ghost_name ≡ out.entry.ghost_name }
        ensures page { page_of result ≡ page out.old at }
    {
        Page { out, at }
    }

    // The next place.
    pub fn at(&self) -> usize
        ensures { result ≡ self.now.at }
    {
        self.at
    }

    // What stands before the next place.
    pub fn written(&self) -> &[u8]
        ensures { result.now ≡ take self.now.at self.now.out.now }
    {
        self.out.get(..self.at).unwrap_or(&self.out[..])
    }

    // One byte.
    #[tactic(auto, using(crate::proofs::PageLaws::one_byte))]
    pub fn put_byte(&mut self, byte: u8)
        ensures { Puts (byte ∷ []) self.old self.new }
    {
        if self.at < self.out.len() {
            self.out[self.at] = byte;
            self.at += 1;
        }
    }

    // A text.
    #[tactic(auto, using(crate::proofs::PageLaws::turns))]
    pub fn put_text(&mut self, text: &[u8])
        ensures { Puts text.now self.old self.new }
    {
        for byte in text {
            self.put_byte(*byte);
        }
    }

    // Line number k of a table of texts, one to a line.
    pub fn put_line(&mut self, table: &[u8], k: usize)
        ensures { Puts (line k table.now) self.old self.new }
    {
        if let Some(line) = table.split(|byte| *byte == b'\n').nth(k) {
            self.put_text(line);
        }
    }

    // One byte so many times.
    #[tactic(auto, using(crate::proofs::PageLaws::turns))]
    pub fn put_repeated(&mut self, byte: u8, count: usize)
        ensures { Puts (replicate count byte) self.old self.new }
    {
        for _ in 0..count {
            self.put_byte(byte);
        }
    }

    // A number in decimal.
    #[tactic(auto, using(crate::proofs::PageLaws::in_a_row, crate::proofs::NumberLaws::in_decimal))]
    pub fn put_decimal(&mut self, n: usize)
        ensures { Puts (decimal n) self.old self.new }
    {
        if 10 <= n {
            self.put_decimal(n / 10);
        }
        self.put_byte(digit(n % 10));
    }

    // A text at the end of so wide a column.
    #[tactic(auto, using(crate::proofs::PageLaws::in_a_row), unfolding(crate::specs::Numbers::aligned))]
    pub fn put_aligned(&mut self, width: usize, text: &[u8])
        ensures { Puts (aligned width text.now) self.old self.new }
    {
        self.put_repeated(b' ', width.saturating_sub(text.len()));
        self.put_text(text);
    }

    // A number in decimal at the end of so wide a column.
    #[tactic(auto, using(crate::proofs::PageLaws::in_a_row), unfolding(crate::specs::Numbers::padded, crate::specs::Numbers::aligned))]
    pub fn put_padded(&mut self, width: usize, n: usize)
        ensures { Puts (padded width n) self.old self.new }
    {
        self.put_repeated(b' ', width.saturating_sub(digit_count(n)));
        self.put_decimal(n);
    }
}
