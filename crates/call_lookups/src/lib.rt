// A period looked up in an index, or in any slice: its first entry, or that there is none. One to three numbers left over at the end are no entry.
#![tactic(auto)]

ghost use Rattle.std.specs.Prelude.{◌≡◌};
ghost use Rattle.words_index.specs.Calls.{lookup_gives};

use row_entries::{entries, number};
use words_index::Looked;

// the first entry of a period: its place in the index, the place of the period's first line, the number of its lines, its largest copy count. Any slice may be handed
// in, so that all entries are looked at, one after another
#[tactic(auto, using(words_index::proofs::EntryLayout::entry_inside))]
pub fn lookup(index: &[u64], period: u64) -> Option<Looked>
    ensures { result ≡ lookup_gives index.now period }
{
    let whole = entries(index);
    for k in 0..whole {
        let here = number(index, k, 0) == period;
        if here {
            return Some(Looked {
                place: k,
                first: number(index, k, 1),
                lines: number(index, k, 2),
                largest: number(index, k, 3),
            });
        }
    }
    None
}
