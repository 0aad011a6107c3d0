// The order of floats: definitions and laws alone, for the crates that compare entropies.
// Main property: NaN apart, `<` and `==` of floats are a total order, and so is the order by value and then by word.

#![tactic(auto)]
