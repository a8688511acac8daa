// The bench's own check that a list and a list of runs agree: the lines that the runs give, one after another, are compared with the list's. It looks at the two lists
// alone, and its code is apart from the lister's, but for the layout of a row. `crates/words_agree` has what agreeing means.
#![tactic(auto)]

ghost use Rattle.std.specs.Prelude.{◌≡◌, ◌^◌, ◌≤◌, ◌<◌, length};
ghost use Rattle.words_agree.specs.Agree.{whole_periods};
ghost use Rattle.words_agree.specs.Lists.{lines_by, agree};
ghost use Rattle.row_matches.specs.Matching.{reached, Passes};

use row_matches::{begin, ended, pass_line};
use row_runs::{end_of, period_of, room, start_of};
use slots::wide;

// the number of whole periods from i to b
fn whole_periods(p: usize, i: usize, b: usize) -> usize
    requires { (i ≤ b) × (b < 2 ^ 16) }
    ensures { result ≡ whole_periods p i b }
{
    if p == 0 {
        return 0;
    }
    (b + 1 - i) / p
}

// the lines by the run from a to b: once fewer than two periods are left, there is no more
fn agree_run(
    list: &[u16],
    from: Result<usize, usize>,
    a: usize,
    b: usize,
    p: usize,
) -> Result<usize, usize>
    requires { (reached from ≤ length list.now) × (b < 2 ^ 16) }
    ensures { Passes (lines_by a b p) list.now from result }
{
    let mut m = from;
    for i in a..b + 1 {
        let e = whole_periods(p, i, b);
        let none = e < 2;
        if none {
            return m;
        }
        m = pass_line(list, m, i, p, e);
    }
    m
}

// are these exactly the lines that the runs give?
pub fn runs_agree(list: &[u16], runs: &[u16]) -> bool
    ensures { result ≡ agree list.now runs.now }
{
    let rows = room(runs);
    let mut m = begin();
    for k in 0..rows {
        let a = wide(start_of(runs, k));
        let b = wide(end_of(runs, k));
        m = agree_run(list, m, a, b, wide(period_of(runs, k)));
    }
    ended(list, m)
}
