// Judging a log that is handed in, for a read of any length up to 1,000: the first bad entry, and whether the log is well formed. One pass keeps
// the last width at which each position moved: as long as all entries are good widths do not fall, so a position moves twice at a width exactly
// when that is the last width seen of it.
#![tactic(auto)]

ghost use Rattle.std.specs.Prelude.{◌≡◌, true, ◌+◌, ◌≤◌, ◌<◌};
ghost use Rattle.words.specs.Rows.{rows};
ghost use Rattle.words.specs.Moves.{top_of, move_size};
ghost use Rattle.words.specs.Logs.{before, good, first_bad, well_formed};
ghost use Rattle.call_judges.specs.Judge.{in_range, follows, Seen};

use read_edges::top_of;
use row_moves::{entries, move_size, name_of, place_of, width_of};
use slots::{load, store};

// are the width, the name and the position of entry k what they may be?
fn in_range(log: &[u16], k: usize, n: u16, top: u16) -> bool
    requires { (k < rows move_size log.now) × (top ≡ top_of n) }
    ensures { result ≡ in_range n log.now k }
{
    (1..top).contains(&width_of(log, k))
        && (1..=n).contains(&name_of(log, k))
        && (1..n).contains(&place_of(log, k))
}

// does entry k come strictly after the one before?
fn comes_after(log: &[u16], k: usize) -> bool
    requires { k < rows move_size log.now }
    ensures { result ≡ follows log.now k }
{
    k == 0 || ordered(log, k - 1, k)
}

fn ordered(log: &[u16], h: usize, k: usize) -> bool
    requires { (h < rows move_size log.now) × (k < rows move_size log.now) }
    ensures { result ≡ before log.now h k }
{
    (width_of(log, h), name_of(log, h), place_of(log, h))
        < (width_of(log, k), name_of(log, k), place_of(log, k))
}

// is entry k good, where all before it are? If so, its position is seen to have moved at its width
fn judge(seen: &mut [u16; 1000], log: &[u16], k: usize, n: u16, top: u16) -> bool
    requires { (k < rows move_size log.now) × (n ≤ 1000) × (top ≡ top_of n) × Seen n log.now k seen.old }
    ensures { (result ≡ good n log.now k) × (result ≡ true → Seen n log.now (k + 1) seen.new) }
{
    // returned early: what follows is of entries in range
    if !in_range(log, k, n, top) || !comes_after(log, k) {
        return false;
    }
    let w = width_of(log, k);
    let i = place_of(log, k);
    if load(seen, i) == w {
        return false;
    }
    store(seen, i, w);
    true
}

// the index of the first bad entry, or the number of whole entries if none is bad, as in the definition that refusal 5 is worded by
pub fn first_bad(log: &[u16], n: u16) -> usize
    requires { n ≤ 1000 }
    ensures { result ≡ first_bad n log.now }
{
    let mut seen = [0u16; 1000];
    let top = top_of(n);
    let whole = entries(log);
    for k in 0..whole {
        if !judge(&mut seen, log, k, n, top) {
            return k;
        }
    }
    whole
}

// is the log well formed, where k is the index of its first bad entry? It is if the entries before that are all of it; the contract speaks of n
pub fn well_formed(log: &[u16], n: u16, k: usize) -> bool
    requires { k ≡ first_bad n log.now }
    ensures { result ≡ well_formed n log.now }
{
    move_size() * k == log.len()
}
