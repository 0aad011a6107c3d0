// The sentences that `replay` says on standard error: why it answers no more.
ghost use Rattle.std.specs.Prelude.{◌≡◌, ◌≤◌, length};
ghost use Rattle.text.specs.Pages.{page, put, Puts};
ghost use Rattle.stream.specs.Sentences.{reason_text};

use text::Page;

// Why no more is answered, in the order of the sentences.
#[derive(Clone, Copy)]
pub enum Reason {
    CutOff,
    Unreadable,
    Unwritten,
}

// The sentence of a reason, by its number.
fn put_sentence(page: &mut Page, reason: usize)
    ensures { Puts (reason_text reason) page.old page.new }
{
    page.put_text(b"replay: ");
    page.put_line(
        b"the stream is cut off in a case\nthe stream cannot be read\nthe answer could not be written",
        reason,
    );
    page.put_byte(b'\n');
}

// The same at the front of what is lent, and the next place. By number, since it answers every number (docs/CONTRACTS.md, `reason_text`).
pub fn put_reason(reason: usize, out: &mut [u8]) -> usize
    ensures result_after { page out.new result ≡ put (reason_text reason) (page out.old 0) }
    ensures upper_bound { result ≤ length out.old }
{
    let mut page = Page::new(out, 0);
    put_sentence(&mut page, reason);
    page.at()
}
