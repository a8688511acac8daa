// Marker scoring, the crate above the library that a scorer links: the calls of document 02, item 7. None has a `requires`: any read, primers, motif, reference, house list and number
// are answered. What each answers stands in specs/Calls.antt of crates/words_markers; docs/CONTRACTS.md has a row for each.
// proofs/Scores.antt has what is so of a score, and proofs/Parts.antt what is so of the part that is shown.
#![tactic(auto)]

pub use marker_calls::{score, shown};
