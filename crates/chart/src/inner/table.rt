// The chart as text. Each call puts the text of one definition.
ghost use Rattle.std.specs.Prelude.{◌≡◌, ◌/◌, ◌<◌, replicate};
ghost use Rattle.text.specs.Pages.{Puts, texts};
ghost use Rattle.chart.specs.Chart as meaning;
ghost use Rattle.chart.specs.Chart.{cell_text, cells_text, row_text, row_of, row_count, rows_text, border_text, column_text, columns_text, seam_text, end_text, label_text, entry_text, some_text, count_text, legend_text, grid_text, chart_of};
ghost use Rattle.chart.specs.Tallies.{tally, alike, holding};

use crate::inner::signs::{border, glyph, joins_x, joins_y};
use text::Page;

// An ocean as it is shown: the grid's sides and mode, whether the patterns are named as the practice ocean's, how the run ended and how many words it used, and the domains.
// `mode` and `end` stay numbers: `put_chart` and the picture's calls tell every number (docs/CONTRACTS.md, `chart_text`).
#[derive(Clone, Copy)]
pub struct Ocean<'a> {
    pub width: usize,
    pub height: usize,
    pub mode: usize,
    pub named: bool,
    pub end: usize,
    pub words: usize,
    pub domains: &'a [u64],
}

// ---- the grid

// How many signs wide a cell is.
#[tactic(auto, unfolding(crate::specs::Chart::wideness))]
fn wideness(domains: &[u64]) -> usize
    ensures { result ≡ meaning.wideness domains.now }
{
    if count_holding(domains, 10) == 0 {
        2
    } else {
        3
    }
}

// A cell, so many signs wide.
#[tactic(auto, using(text::proofs::PageLaws::in_a_row), unfolding(crate::specs::Chart::cell_text))]
fn put_cell(page: &mut Page, wide: usize, word: u64)
    ensures { Puts (cell_text wide word) page.old page.new }
{
    if word == 0 {
        return page.put_aligned(wide, b"?");
    }
    let left = words::inner::count_ones(word);
    if left == 1 {
        return page.put_aligned(wide, &[glyph(words::inner::next_pattern(word))]);
    }
    page.put_padded(wide, left);
}

// The cells of a row.
#[tactic(auto, using(text::proofs::PageLaws::turns), unfolding(crate::specs::Chart::cells_text))]
fn put_cells(page: &mut Page, wide: usize, row: &[u64])
    ensures { Puts (cells_text wide row.now) page.old page.new }
{
    for word in row {
        put_cell(page, wide, *word);
    }
}

// A row, with its number and its borders.
#[tactic(auto, using(text::proofs::PageLaws::in_a_row), unfolding(crate::specs::Chart::row_text))]
fn put_row(page: &mut Page, wide: usize, y: usize, joined: bool, row: &[u64])
    ensures { Puts (row_text wide y joined row.now) page.old page.new }
{
    let sign = border(joined, b'|');
    page.put_padded(2, y);
    page.put_byte(b' ');
    page.put_byte(sign);
    put_cells(page, wide, row);
    page.put_byte(b' ');
    page.put_byte(sign);
    page.put_byte(b'\n');
}

// How many whole rows there are.
pub fn row_count(width: usize, cells: usize) -> usize
    ensures { result ≡ cells / width }
{
    cells.checked_div(width).unwrap_or(0)
}

// The rows.
#[tactic(auto, using(text::proofs::PageLaws::turns), unfolding(crate::specs::Chart::rows_text))]
fn put_rows(page: &mut Page, wide: usize, width: usize, joined: bool, domains: &[u64])
    ensures { Puts (rows_text wide width joined domains.now) page.old page.new }
{
    if width != 0 {
        for (y, row) in domains.chunks_exact(width).enumerate() {
            put_row(page, wide, y, joined, row);
        }
    }
}

// So many signs over each cell.
#[tactic(auto, using(text::proofs::PageLaws::turns))]
fn put_side(page: &mut Page, wide: usize, width: usize, sign: u8)
    ensures { Puts (texts (λ x. replicate wide sign) 0 width) page.old page.new }
{
    for _ in 0..width {
        page.put_repeated(sign, wide);
    }
}

// The north or the south border.
#[tactic(auto, using(text::proofs::PageLaws::in_a_row), unfolding(crate::specs::Chart::border_text))]
fn put_border(page: &mut Page, wide: usize, width: usize, joined: bool)
    ensures { Puts (border_text wide width joined) page.old page.new }
{
    let sign = border(joined, b'-');
    page.put_text(b"   +");
    put_side(page, wide, width, sign);
    page.put_byte(sign);
    page.put_text(b"+\n");
}

// A column's number over every fourth column.
#[tactic(auto, unfolding(crate::specs::Chart::column_text))]
fn put_column(page: &mut Page, wide: usize, x: usize)
    ensures { Puts (column_text wide x) page.old page.new }
{
    if x % 4 == 0 {
        page.put_padded(wide, x);
    } else {
        page.put_repeated(b' ', wide);
    }
}

// The columns' numbers.
#[tactic(auto, using(text::proofs::PageLaws::turns))]
fn put_numbers(page: &mut Page, wide: usize, width: usize)
    ensures { Puts (texts (column_text wide) 0 width) page.old page.new }
{
    for x in 0..width {
        put_column(page, wide, x);
    }
}

// The line over the grid.
#[tactic(auto, using(text::proofs::PageLaws::in_a_row), unfolding(crate::specs::Chart::columns_text))]
fn put_columns(page: &mut Page, wide: usize, width: usize)
    ensures { Puts (columns_text wide width) page.old page.new }
{
    page.put_text(b"    ");
    put_numbers(page, wide, width);
    page.put_byte(b'\n');
}

// The grid with its borders.
#[tactic(auto, using(text::proofs::PageLaws::in_a_row), unfolding(crate::specs::Chart::grid_text))]
fn put_grid(page: &mut Page, wide: usize, width: usize, mode: usize, domains: &[u64])
    ensures { Puts (grid_text wide width mode domains.now) page.old page.new }
{
    put_columns(page, wide, width);
    put_border(page, wide, width, joins_y(mode));
    put_rows(page, wide, width, joins_x(mode), domains);
    put_border(page, wide, width, joins_y(mode));
}

// ---- in words

// Which sides are seams.
#[tactic(auto, using(text::proofs::PageLaws::in_a_row), unfolding(crate::specs::Chart::seam_text))]
fn put_seam(page: &mut Page, mode: usize)
    ensures { Puts (seam_text mode) page.old page.new }
{
    page.put_line(
        b"No side is joined to another: - and | are edges.\nEast meets west: what leaves at a : comes in at the other one. - is an edge.\nNorth meets south: what leaves at a : comes in at the other one. | is an edge.\nEast meets west and north meets south: what leaves at a : comes in at the other one.",
        mode,
    );
    page.put_byte(b'\n');
}

// How the run ended, and the words that it used.
pub fn put_end(page: &mut Page, end: usize, words: usize)
    ensures { Puts (end_text end words) page.old page.new }
{
    page.put_line(
        b"Decided: every cell has one pattern.\nUndecided: nothing is left to choose, and some cell has more than one pattern.\nPaused: the words were used up before every cell was decided.\nContradiction: no pattern is left, every cell is empty.",
        end,
    );
    page.put_text(b" Words used: ");
    page.put_decimal(words);
    page.put_text(b".\n");
}

// ---- the legend

// How many cells have exactly the patterns of a word.
pub fn count_alike(domains: &[u64], word: u64) -> usize
    ensures { result ≡ tally (alike word) domains.now }
{
    domains.iter().filter(|w| **w == word).count()
}

// How many cells have so many patterns or more.
fn count_holding(domains: &[u64], many: usize) -> usize
    ensures { result ≡ tally (holding many) domains.now }
{
    domains
        .iter()
        .filter(|w| many <= words::inner::count_ones(**w))
        .count()
}

// A pattern's name in the practice ocean, where that is laid.
#[tactic(auto, using(text::proofs::PageLaws::in_a_row), unfolding(crate::specs::Chart::label_text))]
pub fn put_label(page: &mut Page, named: bool, p: usize)
    ensures { Puts (label_text named p) page.old page.new }
{
    if named {
        page.put_text(b": ");
        practice::put_name(page, p);
    }
}

// A pattern: its sign, in how many cells it stands, its number and its name.
#[tactic(auto, using(text::proofs::PageLaws::in_a_row), unfolding(crate::specs::Chart::entry_text))]
fn put_entry(page: &mut Page, named: bool, p: usize, cells: usize)
    ensures { Puts (entry_text named p cells) page.old page.new }
{
    page.put_text(b"  ");
    page.put_byte(glyph(p));
    page.put_padded(6, cells);
    page.put_text(b"  pattern ");
    page.put_padded(2, p);
    put_label(page, named, p);
    page.put_byte(b'\n');
}

// A pattern that stands in some cell.
#[tactic(auto, using(text::proofs::PageLaws::in_a_row), unfolding(crate::specs::Chart::some_text))]
fn put_some(page: &mut Page, named: bool, domains: &[u64], p: usize)
    requires { p < 64 }
    ensures { Puts (some_text named domains.now p) page.old page.new }
{
    let cells = count_alike(domains, words::inner::lone_pattern(p));
    if cells != 0 {
        put_entry(page, named, p, cells);
    }
}

// The patterns that stand in some cell.
#[tactic(auto, using(text::proofs::PageLaws::turns))]
fn put_patterns(page: &mut Page, named: bool, domains: &[u64])
    ensures { Puts (texts (some_text named domains.now) 0 64) page.old page.new }
{
    for p in 0..64 {
        put_some(page, named, domains, p);
    }
}

// The cells of a sign that is no pattern's: how many, and what it says, where there are any.
#[tactic(auto, using(text::proofs::PageLaws::in_a_row), unfolding(crate::specs::Chart::count_text))]
fn put_count(page: &mut Page, sign: &[u8], cells: usize, meaning: &[u8])
    ensures { Puts (count_text sign.now cells meaning.now) page.old page.new }
{
    if cells != 0 {
        page.put_text(sign);
        page.put_padded(6, cells);
        page.put_text(meaning);
    }
}

// The legend.
fn put_legend(page: &mut Page, named: bool, domains: &[u64])
    ensures { Puts (legend_text named domains.now) page.old page.new }
{
    put_patterns(page, named, domains);
    put_count(
        page,
        b" 2+",
        count_holding(domains, 2),
        b"  undecided: the number says how many patterns remain\n",
    );
    put_count(
        page,
        b"  ?",
        count_alike(domains, 0),
        b"  empty: no pattern remains\n",
    );
}

// The chart of an ocean: its grid with seams and edges, how its run ended, and a legend, with the practice ocean's names where `named`.
#[tactic(auto, using(text::proofs::PageLaws::in_a_row), unfolding(crate::specs::Chart::chart_text))]
pub fn put_chart(page: &mut Page, ocean: &Ocean)
    ensures { Puts (chart_of ocean.now) page.old page.new }
{
    let wide = wideness(ocean.domains);
    put_grid(page, wide, ocean.width, ocean.mode, ocean.domains);
    put_seam(page, ocean.mode);
    put_end(page, ocean.end, ocean.words);
    put_legend(page, ocean.named, ocean.domains);
}
