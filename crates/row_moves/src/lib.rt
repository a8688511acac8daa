// A move as the code has it: how many numbers it takes, which is which, and a move written. No other code knows a move's layout.
// One trait over this and `row_lines` and `row_runs` would be no plainer: each function is one call of `row_cells`, which is generic, with a move's size.
#![tactic(auto, unfolding(words::specs::Rows::cell, words::specs::Moves::move_size, words::specs::Moves::move_of, words::specs::Moves::width_cell, words::specs::Moves::width_of, words::specs::Moves::name_of, words::specs::Moves::place_of))]

ghost use Rattle.std.specs.Prelude.{◌≡◌, ◌+◌, ◌≤◌, ◌<◌, length};
ghost use Rattle.words.specs.Rows.{rows};
ghost use Rattle.words.specs.Moves.{move_of, move_size, width_cell, width_of, name_of, place_of};
ghost use Rattle.row_cells.specs.Stored.{stored};

use row_cells::{cell, count, put};

pub fn move_size() -> usize
    ensures { result ≡ move_size }
{
    3
}

// which number of a move is its width
pub fn width_cell() -> usize
    ensures { result ≡ width_cell }
{
    0
}

// how many whole entries a log has
pub fn entries(log: &[u16]) -> usize
    ensures { result ≡ rows move_size log.now }
{
    count(log, move_size())
}

// the width, the name and the position of entry k, counted from 0
pub fn width_of(log: &[u16], k: usize) -> u16
    requires { k < rows move_size log.now }
    ensures { result ≡ width_of log.now k }
{
    cell(log, move_size(), k, width_cell())
}

pub fn name_of(log: &[u16], k: usize) -> u16
    requires { k < rows move_size log.now }
    ensures { result ≡ name_of log.now k }
{
    cell(log, move_size(), k, 1)
}

pub fn place_of(log: &[u16], k: usize) -> u16
    requires { k < rows move_size log.now }
    ensures { result ≡ place_of log.now k }
{
    cell(log, move_size(), k, 2)
}

// a move is put at an index
pub fn put_move(out: &mut [u16], from: usize, width: u16, name: u16, place: u16)
    requires { from + move_size ≤ length out.old }
    ensures { out.new ≡ stored out.old from (move_of width name place) }
{
    let row = [width, name, place];
    put(out, from, &row);
}
