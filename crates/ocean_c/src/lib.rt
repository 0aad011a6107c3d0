// Murghidossu for programs of other languages: every public call by C's calling convention, under the prefix `murghidossu_`. A slice is a
// pointer and how many entries there are; include/murghidossu.h declares them.
// Follows docs/RULES.md, "Refusals". Main property: an answer is one number, which tells it whole (specs/Coded.antt).

#![tactic(auto)]

mod asked;
mod codes;
mod laying;
mod lists;
mod sheets;

pub use asked::{murghidossu_choice_of, murghidossu_entropy_of, murghidossu_neighbour};
pub use laying::{murghidossu_propagate, murghidossu_run, murghidossu_run_result};
pub use lists::{murghidossu_check_table, murghidossu_list, murghidossu_list_refusal};
pub use sheets::{murghidossu_read, murghidossu_sizes, murghidossu_write};
