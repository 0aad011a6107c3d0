// The signs of the chart: one for each pattern, and those of the borders.
ghost use Rattle.std.specs.Prelude.{◌≡◌};
ghost use Rattle.chart.specs.Signs as meaning;

const GLYPHS: [u8; 64] = *b"#<>~/!.\\=}%*ABCDEFGHIJKLMNOPQRSTUVWXYZabcdefghijklmnopqrstuvwxyz";

// The sign of a pattern.
#[tactic(auto, unfolding(crate::specs::Signs::glyph, crate::specs::Signs::glyphs))]
pub fn glyph(p: usize) -> u8
    ensures { result ≡ meaning.glyph p }
{
    if p < 64 { GLYPHS[p] } else { b'?' }
}

// Whether the mode joins east and west.
#[tactic(auto, unfolding(crate::specs::Signs::joins_x, grid::specs::Grid::wraps_x))]
pub fn joins_x(mode: usize) -> bool
    ensures { result ≡ meaning.joins_x mode }
{
    mode % 2 == 1
}

// Whether the mode joins north and south.
#[tactic(auto, unfolding(crate::specs::Signs::joins_y, grid::specs::Grid::wraps_y))]
pub fn joins_y(mode: usize) -> bool
    ensures { result ≡ meaning.joins_y mode }
{
    2 <= mode
}

// The sign of a border: of a seam, or of an edge.
#[tactic(auto, unfolding(crate::specs::Signs::border))]
pub fn border(joined: bool, edge: u8) -> u8
    ensures { result ≡ meaning.border joined edge }
{
    if joined { b':' } else { edge }
}
