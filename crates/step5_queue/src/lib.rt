// The queue of a width: the positions that move, left of those of each small group, by name, then by position. `push_all` writes it to the row QUE and
// leaves no group small.
#![tactic(auto)]

ghost use Rattle.std.specs.Prelude.{◌≡◌, List, [], ◌∷◌, ℕ, ◌+◌, ◌≤◌, length};
ghost use Rattle.words.specs.Groups.{Least};
ghost use Rattle.slots.specs.Slots.{view};
ghost use Rattle.refine.specs.Refine.{queue};
ghost use Rattle.refine.specs.Phases.{Gaps, FlagsOf};
ghost use Rattle.step1_rows.specs.Rows.{row, Long, Only, NAME, DIST, QUE};
ghost use Rattle.step2_bits.specs.Sets.{flags, Empty};
ghost use Rattle.step5_queue.specs.Filling.{left, group_of, Grown, Group};

use slots::wide;
use step1_rows::{DIST, QUE, load_wide, store_wide};
use step2_bits::Places;

// the position left of j is put behind the k that are there, if there is one
fn push_left(a: &mut [[u16; 1000]; 12], j: usize, k: usize) -> usize
    requires { Long a.old × (j ≤ 1000) × (k + length (left j) ≤ 1000) }
    ensures { Grown a.old a.new k result (left j) }
{
    if 1 < j {
        store_wide(a, QUE, k + 1, (j - 1) as u16);
        return k + 1;
    }
    k
}

// the positions left of those of the group s are put behind the `had` that are there; returns how many there are then
fn push_group(a: &mut [[u16; 1000]; 12], s: usize, had: usize) -> usize
    requires { (t : List ℕ) × Group t a.old s had }
    ensures { (t : List ℕ) → Group t a.old s had → Grown a.old a.new had result (group_of t s) }
{
    let mut k = push_left(a, s, had);
    let mut j = s;
    let mut d = load_wide(a, DIST, j);
    while 0 < d {
        j += d;
        k += 1;
        store_wide(a, QUE, k, (j - 1) as u16);
        d = load_wide(a, DIST, j);
    }
    k
}

// the whole queue is put at the front of its row; returns its length
pub fn push_all(a: &mut [[u16; 1000]; 12], small: &mut Places, n: u16) -> u16
    requires { (n ≤ 1000) × Long a.old × Least (view n (row a.old NAME)) × Gaps (view n (row a.old NAME)) (row a.old DIST) × FlagsOf (view n (row a.old NAME)) (flags small.old.words) }
    ensures { Long a.new × Only (QUE ∷ []) a.old a.new
        × (view result (row a.new QUE) ≡ queue (view n (row a.old NAME)) (view n (flags small.old.words)))
        × (result ≡ length (queue (view n (row a.old NAME)) (view n (flags small.old.words))))
        × Empty (flags small.new.words) }
{
    let mut k: usize = 0;
    while let Some(s) = small.take_least() {
        k = push_group(a, wide(s), k);
    }
    k as u16
}
