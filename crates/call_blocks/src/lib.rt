// The period index of a list that is in order, made block by block: the lines of a period stand together, and each block gives one entry. `index_lines` promises
// the whole index, as far as the slice has room, and `count_entries` how many entries it has.
#![tactic(auto)]

ghost use Rattle.std.specs.Prelude.{◌≡◌, true, ◌<◌};
ghost use Rattle.words.specs.Rows.{rows};
ghost use Rattle.words.specs.Lists.{line_size};
ghost use Rattle.words_index.specs.Index.{in_order, entry_size, index as index_of, entry_count};
ghost use Rattle.row_cells.specs.Listing.{Listing};
ghost use Rattle.call_blocks.specs.Block.{Blocks};

use row_entries::add_entry;
use row_lines::{copies_of, period_of, room};

// The lines of one period: the place behind the last of them, and their largest copy count.
#[derive(Drop)]
pub struct Block {
    pub end: usize,
    pub most: u16,
}

// the lines from line k on that have its period, of a list of `count` lines
#[tactic(auto, using(crate::proofs::Growing::grows_one, crate::proofs::Growing::grows_more, crate::proofs::Growing::grows_ended))]
fn block_at(list: &[u16], k: usize, count: usize) -> Block
    requires { (k < count) × (count ≡ rows line_size list.now) }
    ensures { Blocks list.now k result.end result.most }
{
    let p = period_of(list, k);
    let mut most = copies_of(list, k);
    for j in k + 1..count {
        if period_of(list, j) != p {
            return Block { end: j, most };
        }
        most = most.max(copies_of(list, j));
    }
    Block { end: count, most }
}

// the index of a list, as far as there is room; returns the number of entries
// Its loop stays a `while`: each block says where the next one begins, and an iterator that jumps so is no plainer.
pub fn index_lines(list: &[u16], index: &mut [u64]) -> usize
    requires { in_order list.now ≡ true }
    ensures { Listing entry_size index.old (index_of list.now) result index.new }
{
    let count = room(list);
    let mut k: usize = 0;
    let mut m: usize = 0;
    while k < count {
        let Block { end, most } = block_at(list, k, count);
        let p = period_of(list, k);
        add_entry(index, m, p as u64, k as u64, (end - k) as u64, most as u64);
        k = end;
        m += 1;
    }
    m
}

// how many entries the index of a list has: they are made into a slice that has room for none
pub fn count_entries(list: &[u16]) -> usize
    requires { in_order list.now ≡ true }
    ensures { result ≡ entry_count list.now }
{
    index_lines(list, &mut [])
}
