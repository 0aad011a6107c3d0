// The picture of an ocean, as SVG: a square for each cell, coloured by its pattern. Each call puts the text of one definition.
#![tactic(auto)]

ghost use Rattle.std.specs.Prelude.{◌≡◌, ◌<◌, ◌≤◌};
ghost use Rattle.text.specs.Pages.{Puts, texts};
ghost use Rattle.picture.specs.Picture.{part, colour_text, square_text, place_text, fill_text, told_text, mark_text, tile_text, tiles_text, picture_row, stroke_text, upright_text, level_text, size_text, key_text, foot_text, beside_text, caption_text, swatch_text, shown_text, head_of, picture_row_of, tail_of};
ghost use Rattle.picture.specs.Picture as meaning;

use chart::Ocean;
use chart::inner::{count_alike, joins_x, joins_y, put_end, put_label, row_count};
use text::Page;

// Red, green and blue of each pattern.
const COLOURS: [u8; 192] = [
    232, 244, 250, 158, 190, 222, 62, 125, 190, 214, 224, 150, 72, 176, 160, 120, 84, 160, 250,
    224, 130, 40, 150, 120, 226, 206, 128, 30, 90, 160, 168, 60, 70, 205, 218, 240, 235, 206, 106,
    137, 86, 191, 67, 148, 83, 235, 70, 86, 57, 109, 191, 115, 148, 44, 235, 129, 232, 105, 191,
    169, 148, 111, 81, 125, 106, 235, 101, 191, 86, 148, 67, 102, 70, 189, 235, 191, 189, 57, 116,
    44, 148, 129, 235, 172, 191, 115, 105, 81, 93, 148, 167, 235, 106, 191, 86, 166, 67, 148, 143,
    235, 177, 70, 106, 57, 191, 44, 148, 51, 235, 129, 153, 105, 150, 191, 135, 148, 81, 222, 106,
    235, 86, 191, 150, 148, 92, 67, 75, 70, 235, 93, 191, 57, 148, 44, 102, 129, 219, 235, 191,
    179, 105, 119, 81, 148, 106, 235, 141, 191, 86, 88, 67, 92, 148, 169, 235, 70, 191, 57, 177,
    44, 148, 129, 235, 184, 129, 125, 105, 191, 85, 148, 81, 235, 106, 151, 86, 154, 191, 143, 148,
    67, 197, 70, 235, 57, 191, 122, 148, 64, 44, 129, 140, 235,
];

// ---- a cell

// Red (0), green (1) or blue (2) of a pattern's colour.
#[tactic(auto, unfolding(crate::specs::Picture::part, crate::specs::Picture::colours))]
fn part_of(p: usize, k: usize) -> usize
    requires { k < 3 }
    ensures { result ≡ part p k }
{
    if p < 64 {
        usize::from(COLOURS[3 * p + k])
    } else {
        0
    }
}

// A pattern's colour.
#[tactic(auto, using(text::proofs::PageLaws::in_a_row), unfolding(crate::specs::Picture::colour_text))]
fn put_colour(page: &mut Page, p: usize)
    ensures { Puts (colour_text p) page.old page.new }
{
    page.put_text(b"rgb(");
    page.put_decimal(part_of(p, 0));
    page.put_byte(b',');
    page.put_decimal(part_of(p, 1));
    page.put_byte(b',');
    page.put_decimal(part_of(p, 2));
    page.put_byte(b')');
}

// A unit square, up to its colour.
// As `put_place` and `put_beside` but for the texts: one function of all texts is no plainer, since each call of it takes more lines than these puts.
fn put_square(page: &mut Page, x: usize, y: usize)
    ensures { Puts (square_text x y) page.old page.new }
{
    page.put_text(b"<rect x=\"");
    page.put_decimal(x);
    page.put_text(b"\" y=\"");
    page.put_decimal(y);
    page.put_text(b"\" width=\"1\" height=\"1\" fill=\"");
}

// Where a cell is, in words.
fn put_place(page: &mut Page, x: usize, y: usize)
    ensures { Puts (place_text x y) page.old page.new }
{
    page.put_text(b"\"><title>column ");
    page.put_decimal(x);
    page.put_text(b", row ");
    page.put_decimal(y);
    page.put_text(b": ");
}

// What a cell is filled with: its pattern's colour, hatching where it is undecided, black where it is empty.
#[tactic(auto, using(text::proofs::PageLaws::in_a_row), unfolding(crate::specs::Picture::fill_text))]
fn put_fill(page: &mut Page, word: u64)
    ensures { Puts (fill_text word) page.old page.new }
{
    if word == 0 {
        return page.put_text(b"black");
    }
    if words::inner::count_ones(word) == 1 {
        return put_colour(page, words::inner::next_pattern(word));
    }
    page.put_text(b"url(#open)");
}

// What a cell is, in words.
#[tactic(auto, using(text::proofs::PageLaws::in_a_row), unfolding(crate::specs::Picture::told_text))]
fn put_told(page: &mut Page, named: bool, word: u64)
    ensures { Puts (told_text named word) page.old page.new }
{
    if word == 0 {
        return page.put_text(b"no pattern remains");
    }
    let left = words::inner::count_ones(word);
    if left == 1 {
        let p = words::inner::next_pattern(word);
        page.put_text(b"pattern ");
        page.put_decimal(p);
        return put_label(page, named, p);
    }
    page.put_decimal(left);
    page.put_text(b" patterns remain");
}

// How many patterns remain, written on an undecided cell.
#[tactic(auto, using(text::proofs::PageLaws::in_a_row), unfolding(crate::specs::Picture::mark_text))]
fn put_mark(page: &mut Page, x: usize, y: usize, word: u64)
    ensures { Puts (mark_text x y word) page.old page.new }
{
    let left = words::inner::count_ones(word);
    if 2 <= left {
        page.put_text(b"<text x=\"");
        page.put_decimal(x);
        page.put_text(b"\" y=\"");
        page.put_decimal(y);
        page.put_text(b"\" dx=\".5\" dy=\".7\" text-anchor=\"middle\">");
        page.put_decimal(left);
        page.put_text(b"</text>");
    }
}

// A cell.
fn put_tile(page: &mut Page, named: bool, x: usize, y: usize, word: u64)
    ensures { Puts (tile_text named x y word) page.old page.new }
{
    put_square(page, x, y);
    put_fill(page, word);
    put_place(page, x, y);
    put_told(page, named, word);
    page.put_text(b"</title></rect>");
    put_mark(page, x, y, word);
    page.put_byte(b'\n');
}

// ---- a row

// The cells of a row.
#[tactic(auto, using(text::proofs::PageLaws::turns), unfolding(crate::specs::Picture::tiles_text))]
fn put_tiles(page: &mut Page, named: bool, y: usize, row: &[u64])
    ensures { Puts (tiles_text named y row.now) page.old page.new }
{
    for (x, word) in row.iter().enumerate() {
        put_tile(page, named, x, y, *word);
    }
}

// Row y of the picture, and nothing past the last.
#[tactic(auto, using(text::proofs::PageLaws::in_a_row), unfolding(crate::specs::Picture::picture_row))]
pub fn put_picture_row(page: &mut Page, ocean: &Ocean, y: usize)
    ensures { Puts (picture_row_of ocean.now y) page.old page.new }
{
    if y < row_count(ocean.width, ocean.domains.len()) {
        let start = y * ocean.width;
        let end = start + ocean.width;
        put_tiles(page, ocean.named, y, &ocean.domains[start..end]);
    }
}

// ---- around the cells

// So much below the grid, of which 64 rows count at most.
#[tactic(auto, unfolding(crate::specs::Picture::beneath))]
fn beneath(height: usize, k: usize) -> usize
    requires { k ≤ 64 }
    ensures { result ≡ meaning.beneath height k }
{
    height.min(64) + k
}

// How wide the picture is: the legend's four columns of nine and a margin at least.
#[tactic(auto, unfolding(crate::specs::Picture::breadth))]
fn breadth(width: usize) -> usize
    ensures { result ≡ meaning.breadth width }
{
    if width < 36 { 38 } else { beneath(width, 2) }
}

// How a side is drawn.
#[tactic(auto, using(text::proofs::PageLaws::in_a_row), unfolding(crate::specs::Picture::stroke_text))]
fn put_stroke(page: &mut Page, joined: bool)
    ensures { Puts (stroke_text joined) page.old page.new }
{
    if joined {
        page.put_text(b"\" stroke=\"black\" stroke-width=\".12\" stroke-dasharray=\".4 .3\"/>\n");
    } else {
        page.put_text(b"\" stroke=\"black\" stroke-width=\".12\"/>\n");
    }
}

// The west and the east side.
fn put_upright(page: &mut Page, width: usize, height: usize, joined: bool)
    ensures { Puts (upright_text width height joined) page.old page.new }
{
    page.put_text(b"<path d=\"M0 0V");
    page.put_decimal(height);
    page.put_byte(b'M');
    page.put_decimal(width);
    page.put_text(b" 0V");
    page.put_decimal(height);
    put_stroke(page, joined);
}

// The north and the south side.
fn put_level(page: &mut Page, width: usize, height: usize, joined: bool)
    ensures { Puts (level_text width height joined) page.old page.new }
{
    page.put_text(b"<path d=\"M0 0H");
    page.put_decimal(width);
    page.put_text(b"M0 ");
    page.put_decimal(height);
    page.put_byte(b'H');
    page.put_decimal(width);
    put_stroke(page, joined);
}

// The size of the picture.
fn put_size(page: &mut Page, width: usize, height: usize)
    ensures { Puts (size_text width height) page.old page.new }
{
    page.put_text(b"<svg xmlns=\"http://www.w3.org/2000/svg\" viewBox=\"-1 -2 ");
    page.put_decimal(breadth(width));
    page.put_byte(b' ');
    page.put_decimal(beneath(height, 21));
    page.put_text(b"\" font-family=\"sans-serif\" font-size=\".6\">\n");
}

// What hatched and black cells are, by how the run ended.
#[tactic(auto, using(text::proofs::PageLaws::in_a_row), unfolding(crate::specs::Picture::key_text))]
fn put_key(page: &mut Page, end: usize)
    ensures { Puts (key_text end) page.old page.new }
{
    page.put_line(
        b"\n<tspan x=\"0\" dy=\".75\">Hatched cells are undecided and show how many patterns remain.</tspan>\n<tspan x=\"0\" dy=\".75\">Hatched cells are undecided and show how many patterns remain.</tspan>\n<tspan x=\"0\" dy=\".75\">Black cells have no pattern left.</tspan>",
        end,
    );
}

// How the run ended, below the grid, and what hatched and black cells are.
fn put_foot(page: &mut Page, height: usize, end: usize, words: usize)
    ensures { Puts (foot_text height end words) page.old page.new }
{
    page.put_text(b"</text>\n<text x=\"0\" y=\"");
    page.put_decimal(beneath(height, 1));
    page.put_text(b"\">");
    put_end(page, end, words);
    put_key(page, end);
    page.put_text(b"</text>\n");
}

// The start of the picture, up to its cells.
pub fn put_picture_head(page: &mut Page, ocean: &Ocean)
    ensures { Puts (head_of ocean.now) page.old page.new }
{
    put_size(page, ocean.width, ocean.height);
    page.put_text(
        b"<defs><pattern id=\"open\" width=\".3\" height=\".3\" patternUnits=\"userSpaceOnUse\" patternTransform=\"rotate(45)\"><rect width=\".3\" height=\".3\" fill=\"#ddd\"/><rect width=\".1\" height=\".3\" fill=\"#aaa\"/></pattern></defs>\n<text x=\"0\" y=\"-1\" dy=\".4\">",
    );
    page.put_line(
        b"No side is joined to another.\nEast meets west at the dashed sides.\nNorth meets south at the dashed sides.\nEast meets west and north meets south at the dashed sides.",
        ocean.mode,
    );
    put_foot(page, ocean.height, ocean.end, ocean.words);
}

// ---- the legend

// Where the words beside a pattern's colour begin.
fn put_beside(page: &mut Page, x: usize, y: usize)
    ensures { Puts (beside_text x y) page.old page.new }
{
    page.put_text(b"\"/><text x=\"");
    page.put_decimal(x);
    page.put_text(b"\" y=\"");
    page.put_decimal(y);
    page.put_text(b"\" dx=\"1.3\" dy=\".7\">pattern ");
}

// Beside a pattern's colour: its number and name, and in how many cells it stands.
#[tactic(auto, using(text::proofs::PageLaws::in_a_row), unfolding(crate::specs::Picture::caption_text))]
fn put_caption(page: &mut Page, x: usize, y: usize, named: bool, p: usize, cells: usize)
    ensures { Puts (caption_text x y named p cells) page.old page.new }
{
    put_beside(page, x, y);
    page.put_decimal(p);
    put_label(page, named, p);
    page.put_text(b", cells: ");
    page.put_decimal(cells);
    page.put_text(b"</text>\n");
}

// A pattern's entry.
#[tactic(auto, using(text::proofs::PageLaws::in_a_row), unfolding(crate::specs::Picture::swatch_text))]
fn put_swatch(page: &mut Page, height: usize, named: bool, p: usize, cells: usize)
    requires { p < 64 }
    ensures { Puts (swatch_text height named p cells) page.old page.new }
{
    let x = p / 16 * 9;
    let y = beneath(height, p % 16 + 2);
    put_square(page, x, y);
    put_colour(page, p);
    put_caption(page, x, y, named, p, cells);
}

// The entry of a pattern that stands in some cell.
#[tactic(auto, using(text::proofs::PageLaws::in_a_row), unfolding(crate::specs::Picture::shown_text))]
fn put_shown(page: &mut Page, height: usize, named: bool, domains: &[u64], p: usize)
    requires { p < 64 }
    ensures { Puts (shown_text height named domains.now p) page.old page.new }
{
    let cells = count_alike(domains, words::inner::lone_pattern(p));
    if cells != 0 {
        put_swatch(page, height, named, p, cells);
    }
}

// The entries.
#[tactic(auto, using(text::proofs::PageLaws::turns))]
fn put_swatches(page: &mut Page, height: usize, named: bool, domains: &[u64])
    ensures { Puts (texts (shown_text height named domains.now) 0 64) page.old page.new }
{
    for p in 0..64 {
        put_shown(page, height, named, domains, p);
    }
}

// The end of the picture: the sides over the cells, and the legend.
#[tactic(auto, using(text::proofs::PageLaws::in_a_row), unfolding(crate::specs::Picture::tail_text))]
pub fn put_picture_tail(page: &mut Page, ocean: &Ocean)
    ensures { Puts (tail_of ocean.now) page.old page.new }
{
    put_upright(page, ocean.width, ocean.height, joins_x(ocean.mode));
    put_level(page, ocean.width, ocean.height, joins_y(ocean.mode));
    put_swatches(page, ocean.height, ocean.named, ocean.domains);
    page.put_text(b"</svg>\n");
}
