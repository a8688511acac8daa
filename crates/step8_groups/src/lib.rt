// One turn for each group that a position moved out of: what is left of it gets its name, which is its least position, and its size, and is the best
// of the group's parts until another is weighed against it (step9_parts).
#![tactic(auto)]

ghost use Rattle.std.specs.Prelude.{List, [], ◌∷◌, ℕ, length};
ghost use Rattle.step1_rows.specs.Rows.{row, Long, Only, NAME, SIZE, DIST, TAIL, MANY};
ghost use Rattle.step8_groups.specs.Sweep.{Walkable, Swept};
ghost use Rattle.step8_groups.specs.Turns.{Due, Done};
ghost use Rattle.step8_groups.specs.Groups.{Turnable, Regrouped};

use slots::wide;
use step1_rows::{DIST, MANY, NAME, REST, SIZE, TAIL, TOUCHED, load, load_wide, store, store_wide};

// the group whose least position is h is named h
pub fn rename(a: &mut [[u16; 1000]; 12], h: u16)
    requires { Long a.old × ((u : List ℕ) × Walkable u (row a.old DIST) h) }
    ensures { Long a.new × Only (NAME ∷ []) a.old a.new × ((u : List ℕ) → Walkable u (row a.old DIST) h → Swept u (row a.old NAME) (row a.new NAME) h (length u)) }
{
    let mut j = wide(h);
    let mut d = load_wide(a, DIST, j);
    store_wide(a, NAME, j, h);
    while 0 < d {
        j += d;
        store_wide(a, NAME, j, h);
        d = load_wide(a, DIST, j);
    }
}

// the turn of the group k
fn group_one(a: &mut [[u16; 1000]; 12], k: u16)
    requires { Due a.old k }
    ensures { Done a.old a.new k }
{
    let l = load(a, REST, k);
    let r = load(a, SIZE, k);
    store(a, TAIL, k, 0);
    if 0 < l {
        store(a, MANY, l, r);
        if l != k {
            store(a, SIZE, l, r);
            rename(a, l);
        }
    }
}

// the turns of g groups
pub fn group_all(a: &mut [[u16; 1000]; 12], n: u16, h: u16, g: u16)
    requires { (t : List ℕ) × (S : List ℕ) × Turnable t S n h g a.old }
    ensures { (t S : List ℕ) → Turnable t S n h g a.old → Regrouped t S n h a.new × Only (NAME ∷ SIZE ∷ TAIL ∷ MANY ∷ []) a.old a.new }
{
    for q in 1..=g {
        let k = load(a, TOUCHED, q);
        group_one(a, k);
    }
}
