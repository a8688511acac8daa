// The groups of width 1 of a read, made in rows of zeros: two positions share a group if they have the same letter. One way over the positions, from the
// left, names and links each, counts it in its group, and makes every group small. What a letter is, `read_letters` alone knows.
#![tactic(auto)]

ghost use Rattle.std.specs.Prelude.{◌≡◌, ◌+◌, ◌≤◌, ◌<◌, length};
ghost use Rattle.words.specs.Reads.{at};
ghost use Rattle.slots.specs.Slots.{put};
ghost use Rattle.step1_rows.specs.Rows.{row, put_at, Long, NAME, SIZE, DIST};
ghost use Rattle.step2_bits.specs.Sets.{flags, Empty};
ghost use Rattle.step3_lists.specs.Filed.{Listed};
ghost use Rattle.step4_fresh.specs.Fresh.{Blank, Joined, Began};

use read_letters::last_alike;
use slots::wide;
use step1_rows::{DIST, NAME, PREV, SIZE, load, store};
use step2_bits::Places;
use step3_lists::file;

// i is the first of its group, which is small
fn first_letter(a: &mut [[u16; 1000]; 12], small: &mut Places, i: u16)
    requires { (1 ≤ i) × (i ≤ 1000) }
    ensures { (a.new ≡ put_at (put_at a.old NAME i i) SIZE i 1) × (flags small.new.words ≡ put (flags small.old.words) i 1) }
{
    store(a, NAME, i, i);
    store(a, SIZE, i, 1);
    small.mark(i);
}

// i joins the group of l, the position before it
fn next_letter(a: &mut [[u16; 1000]; 12], l: u16, i: u16)
    requires { Long a.old × Listed a.old × (1 ≤ l) × (l < i) × (i ≤ 1000) × (1 ≤ at (row a.old NAME) l) × (at (row a.old NAME) l ≤ 1000)
        × (at (row a.old SIZE) (at (row a.old NAME) l) < 1000) × (at (row a.old DIST) l ≡ 0) }
    ensures { Joined a.old a.new l i (at (row a.old NAME) l) }
{
    let s = load(a, NAME, l);
    let z = load(a, SIZE, s);
    store(a, NAME, i, s);
    store(a, PREV, i, l);
    store(a, SIZE, s, z + 1);
    store(a, DIST, l, i - l);
    file(a, l, i - l);
}

// the groups of the n positions of the read
pub fn fresh(a: &mut [[u16; 1000]; 12], small: &mut Places, read: &[u8], n: u16)
    requires { (n ≤ 1000) × (length read.now ≡ n) × Blank a.old × Empty (flags small.old.words) }
    ensures { Began read.now n a.new small.new.words }
{
    let mut seen = [0u16; 256];
    for k in 0..n {
        let i = k + 1;
        match last_alike(&mut seen, read[wide(k)], i) {
            Some(l) => next_letter(a, l, i),
            None => first_letter(a, small, i),
        }
    }
}
