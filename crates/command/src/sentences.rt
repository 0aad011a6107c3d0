// The sentences that a person is told. Each call puts the text of one definition.
// They take refusals and faults by number, since each answers every number (docs/CONTRACTS.md, `refusal_text`, `fault_text`, `file_text`).
ghost use Rattle.std.specs.Prelude.{◌≡◌};
ghost use Rattle.text.specs.Pages.{Puts};
ghost use Rattle.command.specs.Sentences.{refusal_text, fault_text, shown_byte, shown, file_number, file_text};

use crate::places::put_place;
use faults::inner::Place;
use text::Page;

// What is wrong with a file, in the order of its sentences.
#[derive(Clone, Copy)]
pub enum FileFault {
    Missing,
    Folder,
    Forbidden,
    Unusable,
    Cut,
    Unwritten,
}

// The number of its sentence.
pub fn file_number(fault: FileFault) -> usize
    ensures { result ≡ file_number fault }
{
    fault as usize + 1
}

// Why a sheet was refused, by the refusal's number, and where it is wrong.
pub fn put_refusal(page: &mut Page, number: usize, place: Place)
    ensures { Puts (refusal_text number place) page.old page.new }
{
    page.put_text(b"ocean: refused: ");
    page.put_decimal(number);
    page.put_byte(b' ');
    page.put_line(
        b"Accepted: nothing is refused\nBadSize: a side of the grid is 0 or over 64, or there are over 1,024 cells\nBadWrap: the wrap mode is over 3\nBadCount: there is no pattern, or there are over 64\nBadWeights: the weights add up to more than 1,024\nBadLength: the noise is not one 32-bit word for each cell\nBadList: a list of neighbours is empty, not strictly ascending, or names a pattern that is not there\nDisagree: a pattern may stand beside another that may not stand beside it\nBadCell: a forbid names a cell that is not in the grid\nBadPattern: a forbid names a pattern that is not there\nBadSheet: the file is no sheet: a record has the wrong length or kind, a forbid's third number is over 1, or there are over 4,096 forbids\nBadDirection: the direction is over 3",
        number,
    );
    put_place(page, place);
    page.put_text(b".\n");
}

// What is wrong with what is asked, by the fault's number.
pub fn put_fault(page: &mut Page, fault: usize)
    ensures { Puts (fault_text fault) page.old page.new }
{
    page.put_text(b"ocean: ");
    page.put_line(
        b"\n--seed wants a number from 0 to 4294967295 after it\n--svg wants the name of a file after it\nthere is no such option, only these: ocean [--svg FILE] [--seed N [SHEET [RESULT]]], or: ocean [--svg FILE] SHEET NOISE WORDS [RESULT]\nthere are more files than SHEET NOISE WORDS RESULT, or with --seed than SHEET RESULT\na sheet wants its noise and its words, as in: ocean SHEET NOISE WORDS, or a seed, as in: ocean --seed 7 SHEET\nwith --seed there is no noise and no words, as in: ocean --seed 7 SHEET RESULT\nRESULT and the picture want names of their own, and one of them has the name of another file here\nthis program takes up to 4,096 cells times patterns, and the sheet has more\nthe name of a file is empty, or longer than 4,096 bytes",
        fault,
    );
    page.put_text(b".\n");
}

// A byte of a name, as it is shown.
#[tactic(auto, unfolding(crate::specs::Sentences::shown_byte))]
fn shown_byte(byte: u8) -> u8
    ensures { result ≡ shown_byte byte }
{
    if byte < 32 || byte == 127 { b'?' } else { byte }
}

// A name, as it is shown.
#[tactic(auto, using(text::proofs::PageLaws::in_a_row, crate::proofs::SentenceLaws::shown_more))]
fn put_name(page: &mut Page, name: &[u8])
    ensures { Puts (shown name.now) page.old page.new }
{
    for byte in name {
        page.put_byte(shown_byte(*byte));
    }
}

// What is wrong with the file of this name, by the fault's number.
pub fn put_file_fault(page: &mut Page, name: &[u8], fault: usize)
    ensures { Puts (file_text name.now fault) page.old page.new }
{
    page.put_text(b"ocean: ");
    put_name(page, name);
    page.put_text(b": ");
    page.put_line(
        b"\nthere is no such file, or no such folder on the way to it\nthis names a folder, not a file\nthis may not be opened\nthis cannot be opened, read or written\nthis ends within a word, and noise and words are files of 32-bit words\nthis could not be written to its end",
        fault,
    );
    page.put_text(b".\n");
}
