// The four directions: 0 North, 1 East, 2 South, 3 West, with their opposites and their steps over the grid.
// A direction is its number, which is a place in flat tables (list 4p + d of a table) and is handed over by C: an enum would be turned into it at each use.
// Follows docs/RULES.md, "Directions". Main property: a direction's opposite steps the other way, and the opposite of that is the direction itself.

#![tactic(auto)]

pub mod inner;
