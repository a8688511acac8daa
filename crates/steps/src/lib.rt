// From width to width, on the rows: `begin` makes the groups of width 1 of a read, `advance` makes one step, and `onward` walks over the widths for
// whoever looks at each of them. The queue of a width and its moves are two functions, since the log writes the moves between them. Before either, whoever
// walks passes the list of the width (`step3_lists::pass`), where the lister finds its starts.
#![tactic(auto)]

ghost use Rattle.std.specs.Prelude.{◌≡◌, List, ℕ, suc, ◌+◌, ◌≤◌, ◌<◌, length};
ghost use Rattle.slots.specs.Slots.{view};
ghost use Rattle.step1_rows.specs.Rows.{row, NAME, QUE};
ghost use Rattle.step2_bits.specs.Sets.{flags, Empty};
ghost use Rattle.step3_lists.specs.Waits.{Waiting};
ghost use Rattle.step4_fresh.specs.Fresh.{Blank};
ghost use Rattle.steps.specs.Held.{Held, Queued, Refined, Advanced, Stands};
ghost use Rattle.steps.specs.Walk.{Onward};

use step2_bits::Places;
use step4_fresh::fresh;
use step5_queue::push_all;
use step7_moves::move_all;
use step8_groups::group_all;
use step9_parts::part_all;

// the groups of width 1 of a read, in rows of zeros
pub fn begin(a: &mut [[u16; 1000]; 12], small: &mut Places, read: &[u8], n: u16)
    requires { (n ≤ 1000) × (length read.now ≡ n) × Blank a.old × Empty (flags small.old.words) }
    ensures { Stands read.now 1 n a.new small.new.words × Waiting 1 a.new }
{
    fresh(a, small, read, n);
}

// the m positions of the queue move on from width w, and the new groups get their names, sizes and flags
pub fn move_on(a: &mut [[u16; 1000]; 12], small: &mut Places, n: u16, w: u16, m: u16)
    requires { Queued n m w a.old small.old.words }
    ensures { Refined (view n (row a.old NAME)) (view m (row a.old QUE)) n a.new small.new.words × Waiting (suc w) a.new }
{
    let made = move_all(a, n, w, m);
    group_all(a, n, made.parts, made.groups);
    part_all(a, small, n, made.parts);
}

// one width on from w, whose list is passed; returns the number of moves
pub fn advance(a: &mut [[u16; 1000]; 12], small: &mut Places, n: u16, w: u16) -> u16
    requires { Held n a.old small.old.words × Waiting (suc w) a.old }
    ensures { Advanced n result a.old small.old.words a.new small.new.words × Waiting (suc w) a.new }
{
    let m = push_all(a, small, n);
    move_on(a, small, n, w, m);
    m
}

// on from width p, which was looked at and its list passed; returns the width reached, or one past the end if no width up to there has more to see
pub fn onward(a: &mut [[u16; 1000]; 12], small: &mut Places, n: u16, p: u16, end: u16) -> u16
    requires { Held n a.old small.old.words × Waiting (suc p) a.old × (1 ≤ p) × (p ≤ end) × (end ≤ 1000) }
    ensures { Held n a.new small.new.words × (result ≤ end → Waiting result a.new) × (p < result) × (result ≤ end + 1) × ((x : List ℕ) → Stands x p n a.old small.old.words → Onward x n p result end a.new small.new.words) }
{
    if p == end {
        return end + 1;
    }
    let moves = advance(a, small, n, p);
    if moves == 0 {
        return end + 1;
    }
    p + 1
}
