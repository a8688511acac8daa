// The library that a tablet links: the public calls of documents 01 and 02. None of them has a `requires`: any slice, any mode, any width and any
// u32 is answered. What each answers and leaves in each slice stands in specs/Calls.antt of crates/words, words_index, words_runs, words_claims and words_primers;
// docs/CONTRACTS.md has a row for each.
// proofs/Demands.antt has the three theorems that a reader should open first; beside them, proofs/Agreement.antt says that what `list` in mode 0 and `runs` write agrees.
#![tactic(auto)]

pub use call_claims::{claim, motif};
pub use call_indexes::index;
pub use call_list_indexes::list_index;
pub use call_lists::list;
pub use call_logs::log;
pub use call_lookups::lookup;
pub use call_primers::{find_primer, reverse_complement};
pub use call_reader::LogReader;
pub use call_replays::replay;
pub use call_runs::runs;
pub use call_tables::group_table;
