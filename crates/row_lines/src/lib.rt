// A line as the code has it: how many numbers it takes, which is which, a line written, and a line compared. No other code knows a line's layout.
// One trait over this and `row_moves` and `row_runs` would be no plainer: each function is one call of `row_cells`, which is generic, with a line's size.
#![tactic(auto, unfolding(words::specs::Rows::cell, words::specs::Lists::line_size, words::specs::Lists::line_of, words::specs::Lists::period_cell, words::specs::Lists::start_of, words::specs::Lists::period_of, words::specs::Lists::copies_of))]

ghost use Rattle.std.specs.Prelude.{◌≡◌, ◌+◌, ◌≤◌, ◌<◌, length, take, drop};
ghost use Rattle.words.specs.Rows.{rows};
ghost use Rattle.words.specs.Reads.{same};
ghost use Rattle.words.specs.Lists.{line_of, line_size, period_cell, start_of, period_of, copies_of};
ghost use Rattle.row_cells.specs.Listing.{many, Adds};

use row_cells::{add, cell, count};
use slots::wide;

pub fn line_size() -> usize
    ensures { result ≡ line_size }
{
    3
}

// which number of a line is its period
pub fn period_cell() -> usize
    ensures { result ≡ period_cell }
{
    1
}

// how many lines a slice has room for
pub fn room(out: &[u16]) -> usize
    ensures { result ≡ rows line_size out.now }
{
    count(out, line_size())
}

// the start, the period and the copies of line k, counted from 0
pub fn start_of(list: &[u16], k: usize) -> u16
    requires { k < rows line_size list.now }
    ensures { result ≡ start_of list.now k }
{
    cell(list, line_size(), k, 0)
}

pub fn period_of(list: &[u16], k: usize) -> u16
    requires { k < rows line_size list.now }
    ensures { result ≡ period_of list.now k }
{
    cell(list, line_size(), k, period_cell())
}

pub fn copies_of(list: &[u16], k: usize) -> u16
    requires { k < rows line_size list.now }
    ensures { result ≡ copies_of list.now k }
{
    cell(list, line_size(), k, 2)
}

// line k, if there is room for it
pub fn add_line(out: &mut [u16], k: usize, start: u16, period: u16, copies: u16)
    requires { k ≤ many }
    ensures { Adds line_size k (k + 1) (line_of start period copies) out.old out.new }
{
    let row = [start, period, copies];
    add(out, k, &row);
}

// does this line stand at a place of the lines?
pub fn is_line(lines: &[u16], at: usize, start: usize, period: usize, copies: usize) -> bool
    requires { at ≤ length lines.now }
    ensures { result ≡ same (line_of start period copies) (take line_size (drop at lines.now)) }
{
    match &lines[at..] {
        [s, p, c, ..] => [start, period, copies] == [wide(*s), wide(*p), wide(*c)],
        _ => false,
    }
}
