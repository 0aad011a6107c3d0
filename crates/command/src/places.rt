// Where a refused sheet is wrong, in words that follow the refusal's sentence.
ghost use Rattle.text.specs.Pages.{Puts};
ghost use Rattle.command.specs.Places.{list_text, half_text, pair_text, forbid_text, where_text};

use faults::inner::Place;
use text::Page;

// A list, by its direction and its pattern.
fn put_list(page: &mut Page, p: usize, d: usize)
    ensures { Puts (list_text p d) page.old page.new }
{
    page.put_text(b": what may stand ");
    page.put_line(b"North\nEast\nSouth\nWest", d);
    page.put_text(b" of pattern ");
    page.put_decimal(p);
}

// That a pattern stands beside another, in the direction that is line d of the names.
#[tactic(auto, using(text::proofs::PageLaws::in_a_row), unfolding(crate::specs::Places::half_text))]
fn put_half(page: &mut Page, start: &[u8], q: usize, verb: &[u8], names: &[u8], d: usize, p: usize)
    ensures { Puts (half_text start.now q verb.now names.now d p) page.old page.new }
{
    page.put_text(start);
    page.put_decimal(q);
    page.put_text(verb);
    page.put_line(names, d);
    page.put_text(b" of ");
    page.put_decimal(p);
}

// Two patterns of which one may stand beside the other, and not the other beside it.
#[tactic(auto, using(text::proofs::PageLaws::in_a_row), unfolding(crate::specs::Places::pair_text, crate::specs::Places::ways, crate::specs::Places::backs))]
fn put_pair(page: &mut Page, p: usize, d: usize, q: usize)
    ensures { Puts (pair_text p d q) page.old page.new }
{
    put_half(
        page,
        b": ",
        q,
        b" may stand ",
        b"North\nEast\nSouth\nWest",
        d,
        p,
    );
    put_half(
        page,
        b", but not ",
        p,
        b" ",
        b"South\nWest\nNorth\nEast",
        d,
        q,
    );
}

// A forbid, and what it names.
fn put_forbid(page: &mut Page, i: usize, names: &[u8], n: usize)
    ensures { Puts (forbid_text i names.now n) page.old page.new }
{
    page.put_text(b": forbid ");
    page.put_decimal(i);
    page.put_text(names);
    page.put_decimal(n);
}

// The place, and nothing where there is none.
#[tactic(auto, using(text::proofs::PageLaws::in_a_row), unfolding(crate::specs::Places::where_text))]
pub(crate) fn put_place(page: &mut Page, place: Place)
    ensures { Puts (where_text place) page.old page.new }
{
    match place {
        Place::Nowhere => {}
        Place::List(p, d) => put_list(page, p, d),
        Place::Pair(p, d, q) => put_pair(page, p, d, q),
        Place::Cell(i, c) => put_forbid(page, i, b" names cell ", c),
        Place::Pattern(i, p) => put_forbid(page, i, b" names pattern ", p),
    }
}
