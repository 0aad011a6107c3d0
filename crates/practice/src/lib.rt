// The practice ocean that is built in: wind regimes from pole to pole on a grid whose east edge meets its west edge.
// Written as a sheet, so that it is read, checked and laid as any other. Its bytes come from tools/practice.py.
#![tactic(auto)]

ghost use Rattle.std.specs.Prelude.{◌≡◌};
ghost use Rattle.text.specs.Pages.{Puts};
ghost use Rattle.practice.specs.Bytes.{bytes};
ghost use Rattle.practice.specs.Names.{name_of};

mod bytes;

use text::Page;

// The sheet.
#[tactic(auto, unfolding(crate::specs::Bytes::bytes))]
pub fn sheet() -> [u8; 746]
    ensures { result ≡ bytes }
{
    bytes::SHEET
}

// The name of a pattern of the practice ocean.
#[tactic(auto, unfolding(crate::specs::Names::name_of))]
pub fn put_name(page: &mut Page, p: usize)
    ensures { Puts (name_of p) page.old page.new }
{
    page.put_line(
        b"arctic pack ice\npolar easterlies\nnorthern westerlies\nnorthern horse latitudes\nnorth-east trades\nsqualls\ndoldrums\nsouth-east trades\nsouthern horse latitudes\nroaring forties\ngales\nantarctic pack ice",
        p,
    );
}
