// A run as the code has it: how many numbers it takes, which is which, and a run written. No other code knows a run's layout.
// One trait over this and `row_lines` and `row_moves` would be no plainer: each function is one call of `row_cells`, which is generic, with a run's size.
#![tactic(auto, unfolding(words::specs::Rows::cell, words_runs::specs::Runs::run_size, words_runs::specs::Runs::run_of, words_runs::specs::Runs::run_period_cell, words_runs::specs::Runs::run_start, words_runs::specs::Runs::run_end, words_runs::specs::Runs::run_period))]

ghost use Rattle.std.specs.Prelude.{◌≡◌, ◌+◌, ◌≤◌, ◌<◌};
ghost use Rattle.words.specs.Rows.{rows};
ghost use Rattle.words_runs.specs.Runs.{run_of, run_size, run_period_cell, run_start, run_end, run_period};
ghost use Rattle.row_cells.specs.Listing.{many, Adds};

use row_cells::{add, cell, count};

pub fn run_size() -> usize
    ensures { result ≡ run_size }
{
    3
}

// which number of a run is its period
pub fn run_period_cell() -> usize
    ensures { result ≡ run_period_cell }
{
    2
}

// how many runs a slice has room for
pub fn room(out: &[u16]) -> usize
    ensures { result ≡ rows run_size out.now }
{
    count(out, run_size())
}

// the start, the end and the period of run k, counted from 0
pub fn start_of(runs: &[u16], k: usize) -> u16
    requires { k < rows run_size runs.now }
    ensures { result ≡ run_start runs.now k }
{
    cell(runs, run_size(), k, 0)
}

pub fn end_of(runs: &[u16], k: usize) -> u16
    requires { k < rows run_size runs.now }
    ensures { result ≡ run_end runs.now k }
{
    cell(runs, run_size(), k, 1)
}

pub fn period_of(runs: &[u16], k: usize) -> u16
    requires { k < rows run_size runs.now }
    ensures { result ≡ run_period runs.now k }
{
    cell(runs, run_size(), k, run_period_cell())
}

// run k, if there is room for it
pub fn add_run(out: &mut [u16], k: usize, start: u16, end: u16, period: u16)
    requires { k ≤ many }
    ensures { Adds run_size k (k + 1) (run_of start end period) out.old out.new }
{
    let row = [start, end, period];
    add(out, k, &row);
}
