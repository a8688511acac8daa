// Judging a list that is handed in: the first line out of place, and whether the list is strictly in the list's order and not cut. Only the order is judged.
#![tactic(auto)]

ghost use Rattle.std.specs.Prelude.{◌≡◌, ◌<◌};
ghost use Rattle.words.specs.Rows.{rows};
ghost use Rattle.words.specs.Lists.{line_size};
ghost use Rattle.words_index.specs.Index.{ahead, placed, first_loose, in_order};

use row_lines::{line_size, period_of, room, start_of};

// does line h come strictly before line k?
#[tactic(auto, unfolding(words_index::specs::Index::ahead))]
fn ordered(list: &[u16], h: usize, k: usize) -> bool
    requires { (h < rows line_size list.now) × (k < rows line_size list.now) }
    ensures { result ≡ ahead list.now h k }
{
    (period_of(list, h), start_of(list, h)) < (period_of(list, k), start_of(list, k))
}

// is line k in its place?
#[tactic(auto, unfolding(words_index::specs::Index::placed))]
fn in_place(list: &[u16], k: usize) -> bool
    requires { k < rows line_size list.now }
    ensures { result ≡ placed list.now k }
{
    k == 0 || ordered(list, k - 1, k)
}

// the first line out of place, or the number of whole lines if none is, as in the definition that refusal 6 is worded by
#[tactic(auto, using(crate::proofs::Judging::loose_here, crate::proofs::Judging::loose_none))]
pub fn first_loose(list: &[u16]) -> usize
    ensures { result ≡ first_loose list.now }
{
    let whole = room(list);
    for k in 0..whole {
        if !in_place(list, k) {
            return k;
        }
    }
    whole
}

// is the list in order, where k is its first line out of place? It is if the lines before that are all of it
#[tactic(auto, using(crate::proofs::Judging::loose_fits, words_index::proofs::Ordered::order_test))]
pub fn in_order(list: &[u16], k: usize) -> bool
    requires { k ≡ first_loose list.now }
    ensures { result ≡ in_order list.now }
{
    line_size() * k == list.len()
}
