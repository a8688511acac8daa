// The log of a read: all moves of the widths 1 to top - 1, to the front of a lent slice.
// `log` promises refusal 1 for a read over the limit, refusal 4 for a slice without room for M(n) moves, and else the log at the front,
// the rest as it was, and the number of moves. The moves of a width are its queue, which the step then goes through, so they are written between
// the two halves of the step.
#![tactic(auto)]

ghost use Rattle.std.specs.Prelude.{◌≡◌, ◌*◌, ◌≤◌, length};
ghost use Rattle.words.specs.Moves.{move_size, M};
ghost use Rattle.words.specs.Answers.{counted_says};
ghost use Rattle.words.specs.Calls.{log_answer, log_leaves};
ghost use Rattle.call_logs.specs.Written.{Written};

use call_moves::{room, write_moves};
use read_edges::check_length;
use slots::wide;
use step2_bits::Places;
use step3_lists::pass;
use step5_queue::push_all;
use steps::{begin, move_on};
use words::Refusal;

// the log of a read; returns the number of moves. After a width without moves no width has one
fn write_log(read: &[u8], out: &mut [u16]) -> usize
    requires { (length read.now ≤ 1000) × (move_size * M (length read.now) ≤ length out.old) }
    ensures { Written read.now out.old out.new result }
{
    let n = read.len() as u16;
    let mut a = [[0u16; 1000]; 12];
    let mut small = Places::none();
    // the starts of the widths, which no log asks for
    let mut found = Places::none();
    begin(&mut a, &mut small, read, n);
    let mut k: usize = 0;
    for w in 1..n / 2 {
        pass(&mut found, &mut a, w);
        let m = push_all(&mut a, &mut small, n);
        if m == 0 {
            return k;
        }
        write_moves(out, k, &a, w, m);
        move_on(&mut a, &mut small, n, w, m);
        k += wide(m);
    }
    k
}

// The log of a read, to the front of `out`.
pub fn log(read: &[u8], out: &mut [u16]) -> Result<usize, Refusal>
    ensures { (counted_says result ≡ log_answer read.now out.old) × (out.new ≡ log_leaves read.now out.old) }
{
    check_length(read)?;
    let needed = room(read.len() as u16);
    if out.len() < needed {
        return Err(Refusal::NoRoom(needed));
    }
    Ok(write_log(read, out))
}
