// The rows of one period, read off the distances of the positions at that width: its lines or its runs, two ways to look at its starts. There is no read and no
// partition here. `rows_at` is handed the starts as a set, which it empties, least first; it promises the rows of the period behind those that were there, as far as
// the slice has room.
#![tactic(auto)]

ghost use Rattle.std.specs.Prelude.{◌≡◌, ◌+◌, ◌≤◌, length};
ghost use Rattle.words.specs.Reads.{at};
ghost use Rattle.row_cells.specs.Listing.{many, Adds};
ghost use Rattle.step2_bits.specs.Sets.{flags, Empty, Where};
ghost use Rattle.start_places.specs.Starts.{Near};
ghost use Rattle.call_periods.specs.Periods.{row_size, row_in, rows_in, Kept};

use start_lines::line_one;
use start_runs::run_one;
use step2_bits::Places;

// what is looked for at a width: the lines of a mode, which is any number that a call is handed, or the runs
#[derive(Clone, Copy, Debug, PartialEq, Eq)]
pub enum Sight {
    Lines(u32),
    Runs,
}

// the row of a start i, if it has one; returns the number of rows
#[tactic(auto, unfolding(crate::specs::Periods::row_size, crate::specs::Periods::row_in, crate::specs::Periods::Kept))]
fn row_one(
    out: &mut [u16],
    count: &mut [u16; 1000],
    dist: &[u16; 1000],
    sight: Sight,
    p: u16,
    i: u16,
    k: usize,
) -> usize
    requires { Near p dist.now × (1 ≤ i) × (i ≤ 1000) × (at dist.now i ≡ p) × (k ≤ many) × Kept dist.now sight p i count.old }
    ensures { Adds (row_size sight) k result (row_in dist.now sight p i) out.old out.new × (result ≤ k + 1) × Kept dist.now sight p (i + 1) count.new }
{
    match sight {
        Sight::Lines(mode) => line_one(out, count, dist, mode, p, i, k),
        Sight::Runs => run_one(out, dist, p, i, k),
    }
}

// the rows of period p, whose starts are taken out of a set; returns the number of rows
pub fn rows_at(
    out: &mut [u16],
    count: &mut [u16; 1000],
    starts: &mut Places,
    dist: &[u16; 1000],
    sight: Sight,
    p: u16,
    prior: usize,
) -> usize
    requires { Near p dist.now × Where dist.now p (flags starts.old.words) × (prior + 1000 ≤ many) × (length count.old ≡ 1000) }
    ensures { Adds (row_size sight) prior result (rows_in dist.now sight p) out.old out.new × (result ≤ prior + 1000) × (length count.new ≡ 1000) × Empty (flags starts.new.words) }
{
    let mut k = prior;
    // the next start is taken at the end of a turn: in the `while let` itself, each line takes 2.5 instructions more
    let mut next = starts.take_least();
    while let Some(i) = next {
        k = row_one(out, count, dist, sight, p, i, k);
        next = starts.take_least();
    }
    k
}
