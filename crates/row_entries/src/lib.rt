// An entry of the period index as the code has it, four numbers: how many there are, a number of one, and an entry written. No other code knows an entry's layout, and
// no other row is of u64 numbers.
#![tactic(auto, unfolding(words::specs::Rows::cell, words_index::specs::Index::entry_size, words_index::specs::Index::entry_of))]

ghost use Rattle.std.specs.Prelude.{◌≡◌, ◌+◌, ◌≤◌, ◌<◌};
ghost use Rattle.words.specs.Rows.{rows, cell as cell_of};
ghost use Rattle.words_index.specs.Index.{entry_of, entry_size};
ghost use Rattle.row_cells.specs.Listing.{many, Adds};

use row_cells::{add, cell, count};

// how many whole entries a slice has, or has room for
pub fn entries(index: &[u64]) -> usize
    ensures { result ≡ rows entry_size index.now }
{
    count(index, 4)
}

// number j of entry k
pub fn number(index: &[u64], k: usize, j: usize) -> u64
    requires { (j < entry_size) × (k < rows entry_size index.now) }
    ensures { result ≡ cell_of entry_size index.now k j }
{
    cell(index, 4, k, j)
}

// entry k, if there is room for it
pub fn add_entry(index: &mut [u64], k: usize, period: u64, first: u64, lines: u64, largest: u64)
    requires { k ≤ many }
    ensures { Adds entry_size k (k + 1) (entry_of period first lines largest) index.old index.new }
{
    let row = [period, first, lines, largest];
    add(index, k, &row);
}
