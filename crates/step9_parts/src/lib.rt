// One turn for each part that moved: it is weighed against the best part so far of its old group, and whichever loses is small; then it gets its size and
// its name. Once all have had their turn, every part is small but the big one of its group.
#![tactic(auto)]

ghost use Rattle.std.specs.Prelude.{◌≡◌, List, ℕ, ◌≤◌};
ghost use Rattle.words.specs.Reads.{at};
ghost use Rattle.step1_rows.specs.Rows.{row, REST};
ghost use Rattle.step2_bits.specs.Sets.{flags, Empty};
ghost use Rattle.step8_groups.specs.Groups.{Regrouped};
ghost use Rattle.step9_parts.specs.Turns.{better_of};
ghost use Rattle.step9_parts.specs.Parts.{weighed, with_loser, Due, Done, Turned};

use step1_rows::{MANY, NAME, QUE, REST, SIZE, load, store};
use step2_bits::Places;
use step8_groups::rename;

// is the part c, of y positions, ahead of b, of z: is it larger, or as large with the smaller name?
fn better(b: u16, z: u16, c: u16, y: u16) -> bool
    ensures { result ≡ better_of b z c y }
{
    (z, c) < (y, b)
}

// the part c is weighed against the best so far of its old group k, and whichever loses is small
fn weigh(a: &mut [[u16; 1000]; 12], small: &mut Places, k: u16, c: u16)
    requires { (1 ≤ k) × (k ≤ 1000) × (1 ≤ c) × (c ≤ 1000) × (at (row a.old REST) k ≤ 1000) }
    ensures { (a.new ≡ weighed a.old k c) × (flags small.new.words ≡ with_loser a.old (flags small.old.words) k c) }
{
    let b = load(a, REST, k);
    if b == 0 {
        store(a, REST, k, c);
        return;
    }
    if better(b, load(a, MANY, b), c, load(a, MANY, c)) {
        store(a, REST, k, c);
        small.mark(b);
        return;
    }
    small.mark(c);
}

// the turn of the part c
fn part_one(a: &mut [[u16; 1000]; 12], small: &mut Places, c: u16)
    requires { Due a.old c }
    ensures { Done a.old a.new (flags small.old.words) (flags small.new.words) c }
{
    let k = load(a, NAME, c);
    weigh(a, small, k, c);
    let y = load(a, MANY, c);
    store(a, SIZE, c, y);
    rename(a, c);
}

// the turns of h parts
pub fn part_all(a: &mut [[u16; 1000]; 12], small: &mut Places, n: u16, h: u16)
    requires { Empty (flags small.old.words) × ((t : List ℕ) × (S : List ℕ) × Regrouped t S n h a.old) }
    ensures { (t S : List ℕ) → Regrouped t S n h a.old → Turned t S n a.old a.new small.new.words }
{
    for q in 0..h {
        let c = load(a, QUE, q + 1);
        part_one(a, small, c);
    }
}
