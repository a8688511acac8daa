// The pass of moves: each position of the queue leaves its group, in the queue's order, for the end of a part of that group. The tail of a group is the
// last position that moved out of it: as the queue goes by the name of the right neighbour's group, a position joins its tail's part if both moved
// under one name, or begins a part. A group of one is its own part, and does not move. One move takes constant time.
#![tactic(auto)]

ghost use Rattle.std.specs.Prelude.{◌≡◌, List, ℕ, suc, ◌≤◌, ◌<◌};
ghost use Rattle.words.specs.Reads.{at};
ghost use Rattle.slots.specs.Slots.{view};
ghost use Rattle.step1_rows.specs.Rows.{row, NAME, SIZE, QUE, TAIL};
ghost use Rattle.refine.specs.Leaving.{leaving};
ghost use Rattle.step7_moves.specs.Moves.{Movable, Moved};
ghost use Rattle.step7_moves.specs.Moving.{Moving, Turn};

use step1_rows::{NAME, QUE, REST, SIZE, TAIL, TOUCHED, load, store};
use step6_leave::{begin_part, join, take_out};

// How many parts began, and how many groups a position moved out of.
#[derive(Drop)]
pub struct Made {
    pub parts: u16,
    pub groups: u16,
}

// i is the first that leaves the group k of r positions, and begins a part
fn first_move(a: &mut [[u16; 1000]; 12], w: u16, k: u16, i: u16, r: u16, made: Made) -> Made
    requires { ((n m q : ℕ) × (o : List (List ℕ)) × Turn n m w q o a.old i made.parts made.groups) × (k ≡ at (row a.old NAME) i) × (at (row a.old TAIL) k ≡ 0) × (r ≡ at (row a.old SIZE) k) × (1 < r) }
    ensures { (n m q : ℕ) (o : List (List ℕ)) → Turn n m w q o a.old i made.parts made.groups → Moving n m w o a.new (suc q) result.parts result.groups }
{
    let g = made.groups + 1;
    let h = made.parts + 1;
    store(a, TOUCHED, g, k);
    store(a, REST, k, k);
    take_out(a, w, k, i, r);
    begin_part(a, h, k, i);
    Made {
        parts: h,
        groups: g,
    }
}

// i leaves the group k of r positions after t, and joins its part or begins one
fn next_move(a: &mut [[u16; 1000]; 12], w: u16, k: u16, i: u16, r: u16, t: u16, made: Made) -> Made
    requires { ((n m q : ℕ) × (o : List (List ℕ)) × Turn n m w q o a.old i made.parts made.groups) × (k ≡ at (row a.old NAME) i) × (t ≡ at (row a.old TAIL) k) × (1 ≤ t) × (r ≡ at (row a.old SIZE) k) }
    ensures { (n m q : ℕ) (o : List (List ℕ)) → Turn n m w q o a.old i made.parts made.groups → Moving n m w o a.new (suc q) result.parts result.groups }
{
    take_out(a, w, k, i, r);
    if load(a, NAME, t + 1) == load(a, NAME, i + 1) {
        join(a, w, k, t, i);
        return made;
    }
    let h = made.parts + 1;
    begin_part(a, h, k, i);
    Made {
        parts: h,
        groups: made.groups,
    }
}

// i leaves its group, if it is not alone there
fn move_one(a: &mut [[u16; 1000]; 12], w: u16, i: u16, made: Made) -> Made
    requires { (n m q : ℕ) × (o : List (List ℕ)) × Turn n m w q o a.old i made.parts made.groups }
    ensures { (n m q : ℕ) (o : List (List ℕ)) → Turn n m w q o a.old i made.parts made.groups → Moving n m w o a.new (suc q) result.parts result.groups }
{
    let k = load(a, NAME, i);
    let t = load(a, TAIL, k);
    let r = load(a, SIZE, k);
    if 0 < t {
        return next_move(a, w, k, i, r, t, made);
    }
    let several = 1 < r;
    if several {
        return first_move(a, w, k, i, r, made);
    }
    made
}

// the positions of the queue of m leave their groups, in the step from width w
pub fn move_all(a: &mut [[u16; 1000]; 12], n: u16, w: u16, m: u16) -> Made
    requires { Movable n m w a.old }
    ensures { Moved w (view n (row a.old NAME)) (leaving (view n (row a.old NAME)) (view m (row a.old QUE))) n a.old a.new result.parts result.groups }
{
    let mut made = Made {
        parts: 0,
        groups: 0,
    };
    for q in 1..=m {
        let i = load(a, QUE, q);
        made = move_one(a, w, i, made);
    }
    made
}
