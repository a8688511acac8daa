// One position leaves its group for a part of it, in constant time: `take_out` takes it out of the links of its group, with the distances, and off
// the group's size, and makes it the group's tail; then `begin_part` or `join` gives it a part.
#![tactic(auto)]

ghost use Rattle.std.specs.Prelude.{◌≡◌, ◌+◌, ◌-◌, ◌≤◌, ◌<◌};
ghost use Rattle.words.specs.Reads.{at};
ghost use Rattle.step1_rows.specs.Rows.{row, put_at, Long, SIZE, PREV, DIST, TAIL};
ghost use Rattle.step3_lists.specs.Filed.{Heads, Changed};
ghost use Rattle.step6_leave.specs.Links.{joined};
ghost use Rattle.step6_leave.specs.Gone.{Leavable, Closed, Detached, Gone, begun_at, counted_at, Joinable};

use step1_rows::{DIST, MANY, PART, PREV, QUE, REST, SIZE, TAIL, load, store};
use step3_lists::change;

// d more than i, or none if d is 0: the position after a position, or the distance to it
fn next(i: u16, d: u16) -> u16
    requires { i + d ≤ 1000 }
    ensures { result ≡ joined i d }
{
    if d == 0 {
        return 0;
    }
    i + d
}

// p, which is before a position in its group, gets the distance to what is after that
fn bridge(a: &mut [[u16; 1000]; 12], w: u16, p: u16, d: u16)
    requires { Long a.old × Heads a.old × (1 ≤ p) × (p ≤ 1000) × (at (row a.old DIST) p + d ≤ 1000) }
    ensures { Changed w a.old a.new p (joined (at (row a.old DIST) p) d) }
{
    let e = load(a, DIST, p);
    change(a, w, p, next(e, d));
}

// the group k without i, seen from before: p is before i, and d the distance to what is after it
fn close(a: &mut [[u16; 1000]; 12], w: u16, k: u16, i: u16, p: u16, d: u16)
    requires { Leavable a.old k i × (p ≡ at (row a.old PREV) i) × (d ≡ at (row a.old DIST) i) }
    ensures { Closed w a.old a.new k i p d }
{
    if 0 < p {
        bridge(a, w, p, d);
    } else {
        store(a, REST, k, next(i, d));
    }
}

// the same, seen from after
fn detach(a: &mut [[u16; 1000]; 12], i: u16, p: u16, d: u16)
    requires { Long a.old × (1 ≤ i) × (i + d ≤ 1000) × (d ≡ at (row a.old DIST) i) }
    ensures { Detached a.old a.new i p d }
{
    if 0 < d {
        store(a, DIST, i, 0);
        store(a, PREV, i + d, p);
    }
}

// i leaves the links of its group k
fn leave(a: &mut [[u16; 1000]; 12], w: u16, k: u16, i: u16)
    requires { Leavable a.old k i }
    ensures { Gone w a.old a.new k i }
{
    let p = load(a, PREV, i);
    let d = load(a, DIST, i);
    close(a, w, k, i, p, d);
    detach(a, i, p, d);
}

// i leaves the group k of r positions in the step from width w, and is its tail
pub fn take_out(a: &mut [[u16; 1000]; 12], w: u16, k: u16, i: u16, r: u16)
    requires { Leavable a.old k i × (1 ≤ r) }
    ensures { Gone w (put_at (put_at a.old TAIL k i) SIZE k (r - 1)) a.new k i }
{
    store(a, TAIL, k, i);
    store(a, SIZE, k, r - 1);
    leave(a, w, k, i);
}

// i begins part number h
pub fn begin_part(a: &mut [[u16; 1000]; 12], h: u16, k: u16, i: u16)
    requires { (1 ≤ h) × (h ≤ 1000) × (1 ≤ k) × (k ≤ 1000) × (1 ≤ i) × (i ≤ 1000) }
    ensures { a.new ≡ begun_at a.old h k i }
{
    store(a, QUE, h, i);
    store(a, PART, k, i);
    store(a, MANY, i, 1);
    store(a, PREV, i, 0);
}

// i joins the part of its tail t
pub fn join(a: &mut [[u16; 1000]; 12], w: u16, k: u16, t: u16, i: u16)
    requires { Joinable a.old k t i }
    ensures { Changed w (counted_at a.old k t i) a.new t (i - t) }
{
    let c = load(a, PART, k);
    let z = load(a, MANY, c);
    store(a, MANY, c, z + 1);
    store(a, PREV, i, t);
    change(a, w, t, i - t);
}
