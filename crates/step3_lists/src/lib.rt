// The positions that wait, in lists, one list for each distance: HEAD holds the first of a list, and AFTER leads on. A distance never falls from width to
// width, and the list of d is looked at only at width d: so a position whose distance grows stays where it waits, on a list of a distance that it had, and
// is filed on when that list's width comes. `change` gives a position a distance, `pass` empties the list of a width; neither takes a position out of the
// middle of a list, so none has to know what is before it. `Waiting` says who has to be on a list at a width, and on which.
#![tactic(auto)]

ghost use Rattle.std.specs.Prelude.{◌≡◌, cond, [], ◌∷◌, suc, ◌≤◌, ◌<◌, eqb};
ghost use Rattle.words.specs.Reads.{at};
ghost use Rattle.slots.specs.Slots.{put};
ghost use Rattle.step1_rows.specs.Rows.{row, Long, Only, DIST, HEAD, AFTER};
ghost use Rattle.step2_bits.specs.Sets.{flags};
ghost use Rattle.step3_lists.specs.Waits.{Waiting};
ghost use Rattle.step3_lists.specs.Filed.{Heads, filed_at, released_at, Changed, Marked};

use step1_rows::{AFTER, DIST, HEAD, load, store};
use step2_bits::Places;

// i, which is on no list, is put first on the list of d
pub fn file(a: &mut [[u16; 1000]; 12], i: u16, d: u16)
    requires { Heads a.old × (1 ≤ i) × (i ≤ 1000) × (1 ≤ d) × (d ≤ 1000) }
    ensures { a.new ≡ filed_at a.old i d }
{
    let h = load(a, HEAD, d);
    store(a, AFTER, i, h + 1);
    store(a, HEAD, d, i);
}

// i gets the distance d, in the step from width w: if that is above w it has to wait, where it does already or on the list of d
pub fn change(a: &mut [[u16; 1000]; 12], w: u16, i: u16, d: u16)
    requires { Long a.old × Heads a.old × (1 ≤ i) × (i ≤ 1000) × (d ≤ 1000) }
    ensures { Changed w a.old a.new i d }
{
    store(a, DIST, i, d);
    if d <= w {
        return;
    }
    if load(a, AFTER, i) == 0 {
        file(a, i, d);
    }
}

// i leaves the list of w: if its distance is w it is one of the set, and if it is above w it waits on
fn release(set: &mut Places, a: &mut [[u16; 1000]; 12], w: u16, i: u16)
    requires { Heads a.old × (1 ≤ i) × (i ≤ 1000) × (at (row a.old DIST) i ≤ 1000) }
    ensures { (a.new ≡ released_at a.old w i)
        × (flags set.new.words ≡ cond (eqb (at (row a.old DIST) i) w) (put (flags set.old.words) i 1) (flags set.old.words)) }
{
    let d = load(a, DIST, i);
    store(a, AFTER, i, 0);
    if d == w {
        set.mark(i);
    } else {
        if w < d {
            file(a, i, d);
        }
    }
}

// the list of w is emptied at width w: the positions of distance w join the set, and those of a larger distance wait on
pub fn pass(set: &mut Places, a: &mut [[u16; 1000]; 12], w: u16)
    requires { Long a.old × Waiting w a.old × (1 ≤ w) × (w ≤ 1000) }
    ensures { Long a.new × Only (HEAD ∷ AFTER ∷ []) a.old a.new × Waiting (suc w) a.new
        × Marked (row a.old DIST) w (flags set.old.words) (flags set.new.words) }
{
    let mut h = load(a, HEAD, w);
    store(a, HEAD, w, 0);
    while 0 < h {
        let b = load(a, AFTER, h) - 1;
        release(set, a, w, h);
        h = b;
    }
}
