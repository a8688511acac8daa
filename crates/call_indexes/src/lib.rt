// The period index of a list alone. `index` answers any two slices; its contract settles the answer and the slice afterwards.
#![tactic(auto)]

ghost use Rattle.std.specs.Prelude.{◌≡◌};
ghost use Rattle.words.specs.Answers.{counted_says};
ghost use Rattle.words_index.specs.Calls.{index_answer, index_leaves};

use call_blocks::{count_entries, index_lines};
use call_orders::{first_loose, in_order};
use row_entries::entries;
use words::Refusal;

// The index of a list, the whole slice being the list, to the front of `index`. It is counted first, since a refusal leaves the slice as it was.
pub fn index(list: &[u16], index: &mut [u64]) -> Result<usize, Refusal>
    ensures { (counted_says result ≡ index_answer list.now index.old)
        × (index.new ≡ index_leaves list.now index.old) }
{
    let k = first_loose(list);
    if !in_order(list, k) {
        return Err(Refusal::OutOfPlace(k));
    }
    let needed = count_entries(list);
    if entries(index) < needed {
        return Err(Refusal::IndexFull(needed));
    }
    Ok(index_lines(list, index))
}
