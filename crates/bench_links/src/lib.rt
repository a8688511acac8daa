// Where the next position of a group stands in a table of names. `link` finds it once for every name and every position, in one pass;
// `Links` then looks it up. A table that the arrays do not fit (more than 1,000 names, or a name that is no position of it)
// gets no links, and is searched: no read has such a table, but the contracts hold for every slice.
#![tactic(auto)]

ghost use Rattle.std.specs.Prelude.{◌≡◌, eqb, true, ◌≤◌, ◌<◌, length, position as place_in};
ghost use Rattle.words.specs.Reads.{at};
ghost use Rattle.slots.specs.Slots.{put};
ghost use Rattle.bench_links.specs.Links.{next_in, or_none, Heads, Nexts, Bare, Linked};

use slots::{load, store, wide};

// a number of the arrays: 0 stands for none
fn position(x: u16) -> Option<usize>
    ensures { result ≡ or_none x }
{
    if x == 0 { None } else { Some(wide(x)) }
}

// the place of the first s in a part of a table
fn place(part: &[u16], s: usize) -> Option<usize>
    ensures { result ≡ place_in (λ x. eqb x s) part.now }
{
    part.iter().position(|x| wide(*x) == s)
}

// the first position after i of the group named s
fn seek(table: &[u16], s: usize, i: usize) -> Option<usize>
    requires { i ≤ length table.now }
    ensures { result ≡ or_none (next_in table.now s i) }
{
    let k = place(&table[i..], s)?;
    Some(i + k + 1)
}

// is s one of 1 to n?
fn inside(s: usize, n: usize) -> bool
    ensures { result ≡ true → (1 ≤ s) × (s ≤ n) }
{
    (1..=n).contains(&s)
}

// a table with its links: by name the first position of the group, by position the next one; either is 0 where there is none. A name or a position that has no
// place there is searched for
#[derive(Clone, Copy)]
pub struct Links<'a> {
    pub table: &'a [u16],
    pub head: &'a [u16],
    pub after: &'a [u16],
    ghost heads: { Heads table.now head.now },
    ghost nexts: { Nexts table.now after.now },
}

impl Links<'_> {
    // the first position of the group named s
    pub fn first_of(&self, s: usize) -> Option<usize>
        ensures { result ≡ or_none (next_in self.now.table.now s 0) }
    {
        if inside(s, self.head.len()) {
            return position(self.head[s - 1]);
        }
        seek(self.table, s, 0)
    }

    // the next position of the group of position i
    pub fn next_of(&self, i: usize) -> Option<usize>
        requires { (1 ≤ i) × (i ≤ length self.now.table.now) }
        ensures { result ≡ or_none (next_in self.now.table.now (at self.now.table.now i) i) }
    {
        if i <= self.after.len() {
            return position(self.after[i - 1]);
        }
        seek(self.table, wide(self.table[i - 1]), i)
    }
}

// position i, before all that are linked, becomes the first of the group named s
fn link_one(head: &mut [u16; 1000], after: &mut [u16; 1000], s: u16, i: u16)
    requires { (1 ≤ s) × (s ≤ 1000) × (1 ≤ i) × (i ≤ 1000) }
    ensures { (head.new ≡ put head.old s i) × (after.new ≡ put after.old i (at head.old s)) }
{
    let j = load(head, s);
    store(after, i, j);
    store(head, s, i);
}

// links the table, from the last position down: how many names and positions are linked, all or none
pub fn link(table: &[u16], head: &mut [u16; 1000], after: &mut [u16; 1000]) -> usize
    requires { Bare head.old after.old }
    ensures { Linked table.now head.new after.new result }
{
    let n = table.len();
    if 1000 < n {
        return 0;
    }
    for i in (0..n).rev() {
        let s = table[i];
        if !inside(wide(s), n) {
            return 0;
        }
        link_one(head, after, s, i as u16 + 1);
    }
    n
}
