// The walk over the widths, for all who look at each of them: the rows of the partition are made here, once, and what a width shows is read off its distances. Lines and runs
// are two ways to look at a width. `look_widths` promises what is seen, as far as the slice has room, how many rows that is and at how many widths there are any;
// `list_widths` says it of the lines of a mode, `count_widths` of their counts alone, `run_widths` of the runs.
#![tactic(auto)]

ghost use Rattle.std.specs.Prelude.{◌≡◌, ◌+◌, ◌≤◌, length, ltb};
ghost use Rattle.words.specs.Range.{bit};
ghost use Rattle.words.specs.Lists.{line_size, lines as lines_of, line_count, in_mode};
ghost use Rattle.words_index.specs.Index.{entry_count};
ghost use Rattle.words_runs.specs.Runs.{run_size, runs as runs_of};
ghost use Rattle.row_cells.specs.Listing.{Listing};
ghost use Rattle.call_periods.specs.Periods.{row_size};
ghost use Rattle.call_widths.specs.Looks.{looked, seen_at};

use call_periods::{Sight, rows_at};
use read_edges::top_of;
use step1_rows::DIST;
use step2_bits::Places;
use step3_lists::pass;
use steps::{begin, onward};

// how many rows there are, and how many periods that have one
#[derive(Drop)]
pub struct Tally {
    pub rows: usize,
    pub periods: usize,
}

// what is looked for in a read, as far as there is room
fn look_widths(out: &mut [u16], read: &[u8], sight: Sight) -> Tally
    requires { length read.now ≤ 1000 }
    ensures { Listing (row_size sight) out.old (looked read.now sight) result.rows out.new
        × (result.periods ≡ seen_at read.now sight) }
{
    let n = read.len() as u16;
    let mut a = [[0u16; 1000]; 12];
    let mut small = Places::none();
    let mut found = Places::none();
    let mut count = [0u16; 1000];
    begin(&mut a, &mut small, read, n);
    let top = top_of(n);
    let mut p: u16 = 1;
    let mut rows: usize = 0;
    let mut periods: usize = 0;
    // a `for` is no plainer: `onward` says which width is next, and ends the walk once nothing moves
    while p <= top {
        pass(&mut found, &mut a, p);
        let more = rows_at(out, &mut count, &mut found, &a[DIST], sight, p, rows);
        periods += usize::from(rows < more);
        rows = more;
        p = onward(&mut a, &mut small, n, p, top);
    }
    Tally { rows, periods }
}

// the lines of a read, as far as there is room
pub fn list_widths(out: &mut [u16], read: &[u8], mode: u32) -> Tally
    requires { length read.now ≤ 1000 }
    ensures { Listing line_size out.old (lines_of read.now (in_mode read.now mode)) result.rows out.new
        × (result.periods ≡ entry_count (lines_of read.now (in_mode read.now mode))) }
{
    look_widths(out, read, Sight::Lines(mode))
}

// both counts alone: the lines are made into an array that has room for none
pub fn count_widths(read: &[u8], mode: u32) -> Tally
    requires { length read.now ≤ 1000 }
    ensures { (result.rows ≡ line_count read.now (in_mode read.now mode))
        × (result.periods ≡ entry_count (lines_of read.now (in_mode read.now mode))) }
{
    let mut none = [0u16; 1];
    list_widths(&mut none, read, mode)
}

// the runs of a read, as far as there is room; returns how many there are
pub fn run_widths(out: &mut [u16], read: &[u8]) -> usize
    requires { length read.now ≤ 1000 }
    ensures { Listing run_size out.old (runs_of read.now) result out.new }
{
    look_widths(out, read, Sight::Runs).rows
}
