// Rows of c numbers in a slice, whatever c and their type are: lines of a list, moves of a log, entries of an index and every row that is added later.
// How many there are, one of them, a number of one, a row put in its place, and a slice cleared. A row's layout is not known here: `row_lines`,
// `row_moves`, `row_runs` and `row_entries` have it.
#![tactic(auto)]

ghost use Rattle.std.specs.Prelude.{◌≡◌, ◌+◌, ◌*◌, ◌≤◌, ◌<◌, length, replicate, get_or};
ghost use Rattle.words.specs.Rows.{widest, rows, part as part_of};
ghost use Rattle.row_cells.specs.Stored.{stored};
ghost use Rattle.row_cells.specs.Listing.{many, Adds};

// how many whole rows of c numbers there are
#[tactic(auto, unfolding(words::specs::Rows::rows))]
pub fn count<T>(list: &[T], c: usize) -> usize
    requires { 1 ≤ c }
    ensures { result ≡ rows c list.now }
{
    list.len() / c
}

// number j of row k
#[tactic(auto, using(crate::proofs::Adding::cell_inside, std::proofs::lemmas::List::get_or_read_under))]
pub fn cell<T: Copy>(list: &[T], c: usize, k: usize, j: usize) -> T
    requires { (j < c) × (k < rows c list.now) }
    ensures { (d : T) → result ≡ get_or list.now (c * k + j) d }
{
    list[c * k + j]
}

// the rows from row a on, up to row b
#[tactic(auto, using(crate::proofs::Adding::room_fits), unfolding(words::specs::Rows::part))]
pub fn part<'a, T>(list: &'a [T], c: usize, a: usize, b: usize) -> &'a [T]
    requires { (a ≤ b) × (b ≤ rows c list.now) }
    ensures { result.now ≡ part_of c list.now a b }
{
    let from = c * a;
    let to = c * b;
    &list[from..to]
}

// a row is put at an index; by `copy_from_slice` each row would be a call of memcpy, and a line takes five times as long to write
#[tactic(auto, using(crate::proofs::Stored::row_next, crate::proofs::Stored::row_whole), unfolding(crate::specs::Stored::stored))]
pub fn put<T: Copy>(out: &mut [T], from: usize, row: &[T])
    requires { from + length row.now ≤ length out.old }
    ensures { out.new ≡ stored out.old from row.now }
{
    for (j, x) in row.iter().enumerate() {
        out[from + j] = *x;
    }
}

// row k, if there is room for it
#[tactic(auto, using(crate::proofs::Adding::row_added, crate::proofs::Adding::row_lost))]
pub fn add<T: Copy>(out: &mut [T], k: usize, row: &[T])
    requires { (k ≤ many) × (length row.now ≤ widest) }
    ensures { Adds (length row.now) k (k + 1) row.now out.old out.new }
{
    let from = row.len() * k;
    if from + row.len() <= out.len() {
        put(out, from, row);
    }
}

// the whole slice becomes 0
pub fn clear(out: &mut [u16])
    ensures { out.new ≡ replicate (length out.old) 0 }
{
    out.fill(0);
}
