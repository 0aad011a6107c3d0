// What the picture shares with the chart: seams, rows, the end in words, and a pattern's label and number.
mod signs;
mod table;

pub use signs::{joins_x, joins_y};
pub use table::{Ocean, count_alike, put_chart, put_end, put_label, row_count};
