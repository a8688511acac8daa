// The text of the moves of one width, a line for each name that they moved under. Each function promises its text byte by byte, the place after it, and that the
// rest of the buffer is as it was.
#![tactic(auto)]

ghost use Rattle.std.specs.Prelude.{◌≡◌, ◌<◌};
ghost use Rattle.words.specs.Rows.{rows};
ghost use Rattle.words.specs.Moves.{move_size};
ghost use Rattle.text_puts.specs.Puts.{Room, Puts};
ghost use Rattle.text_moves.specs.Moves.{begins, ends, under_text, end_text, move_text, moves_text};

use row_moves::{entries, name_of, place_of};
use slots::wide;
use text_groups::put_spaced;
use text_puts::{put_number, put_word};

// does entry k begin a line?
#[tactic(auto, unfolding(crate::specs::Moves::begins))]
fn is_first(moves: &[u16], k: usize) -> bool
    requires { k < rows move_size moves.now }
    ensures { result ≡ begins moves.now k }
{
    k == 0 || name_of(moves, k - 1) != name_of(moves, k)
}

// does entry k end its line?
#[tactic(auto, unfolding(crate::specs::Moves::ends))]
fn is_last(moves: &[u16], k: usize) -> bool
    requires { k < rows move_size moves.now }
    ensures { result ≡ ends moves.now k }
{
    let count = entries(moves);
    k + 1 == count || name_of(moves, k) != name_of(moves, k + 1)
}

// the name that entry k moved under, at the beginning of a line
fn put_under(buf: &mut [u8], at: usize, moves: &[u16], k: usize) -> usize
    requires { (k < rows move_size moves.now) × Room buf.old at (under_text moves.now k) }
    ensures { Puts buf.old at (under_text moves.now k) buf.new result }
{
    if is_first(moves, k) {
        let name = name_of(moves, k);
        let next = put_word(buf, at, b"  moved under ");
        return put_number(buf, next, name as u64, b':');
    }
    at
}

// the newline at the end of a line
fn put_end(buf: &mut [u8], at: usize, moves: &[u16], k: usize) -> usize
    requires { (k < rows move_size moves.now) × Room buf.old at (end_text moves.now k) }
    ensures { Puts buf.old at (end_text moves.now k) buf.new result }
{
    if is_last(moves, k) {
        return put_word(buf, at, b"\n");
    }
    at
}

// entry k
fn put_move(buf: &mut [u8], at: usize, moves: &[u16], k: usize) -> usize
    requires { (k < rows move_size moves.now) × Room buf.old at (move_text moves.now k) }
    ensures { Puts buf.old at (move_text moves.now k) buf.new result }
{
    let place = wide(place_of(moves, k));
    let next = put_under(buf, at, moves, k);
    let next = put_spaced(buf, next, place);
    put_end(buf, next, moves, k)
}

// the moves of one width
pub fn put_moves(buf: &mut [u8], at: usize, moves: &[u16]) -> usize
    requires { Room buf.old at (moves_text moves.now) }
    ensures { Puts buf.old at (moves_text moves.now) buf.new result }
{
    let count = entries(moves);
    let mut next = at;
    for k in 0..count {
        next = put_move(buf, next, moves, k);
    }
    next
}
