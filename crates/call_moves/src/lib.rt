// The moves of one width written to a log, from the queue that a step of the partition goes through, and the room that a log can need.
#![tactic(auto)]

ghost use Rattle.std.specs.Prelude.{◌≡◌, ◌+◌, ◌*◌, ◌≤◌, length};
ghost use Rattle.words.specs.Moves.{move_size, log2, M};
ghost use Rattle.row_cells.specs.Stored.{stored};
ghost use Rattle.step1_rows.specs.Rows.{row, NAME, QUE};
ghost use Rattle.call_moves.specs.Queued.{Inside, moves_to};

use row_moves::{move_size, put_move};
use slots::wide;
use step1_rows::{NAME, QUE, load};

// how many binary digits n has: one more than the whole part of its logarithm
fn digits(n: u16) -> usize
    requires { (1 ≤ n) × (n ≤ 1000) }
    ensures { result ≡ 1 + log2 n }
{
    1 + n.ilog2() as usize
}

// the room for the log of a read of n bytes
pub fn room(n: u16) -> usize
    requires { n ≤ 1000 }
    ensures { result ≡ move_size * M n }
{
    if n < 1 {
        return 0;
    }
    move_size() * (wide(n - 1) * digits(n))
}

// the moves of the first m positions of the queue, each under the name of its right neighbour, behind the k moves that are there
pub fn write_moves(out: &mut [u16], k: usize, a: &[[u16; 1000]; 12], w: u16, m: u16)
    requires { (m ≤ 1000) × Inside (row a.now QUE) m × (move_size * k + move_size * m ≤ length out.old) }
    ensures { out.new ≡ stored out.old (move_size * k) (moves_to w (row a.now NAME) (row a.now QUE) m) }
{
    let size = move_size();
    for q in 0..m {
        let at = size * k + size * wide(q);
        let i = load(a, QUE, q + 1);
        let s = load(a, NAME, i + 1);
        put_move(out, at, w, s, i);
    }
}
