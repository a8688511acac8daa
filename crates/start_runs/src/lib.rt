// The run that begins at one start of a period, read off the distances of the positions at that width: the starts side by side from there on are all in it, and it
// reaches two periods from the last of them. There is no read and no partition here. `run_one` promises the run, if one begins there, behind those that were there,
// as far as the slice has room.
#![tactic(auto)]

ghost use Rattle.std.specs.Prelude.{◌≡◌, ◌+◌, ◌≤◌};
ghost use Rattle.words.specs.Reads.{at};
ghost use Rattle.words_runs.specs.Runs.{run_size};
ghost use Rattle.row_cells.specs.Listing.{many, Adds};
ghost use Rattle.start_places.specs.Starts.{Near};
ghost use Rattle.start_runs.specs.Runs.{first_in, last_in, run_in};

use row_runs::add_run;
use slots::load;

// is there no start just before i?
#[tactic(auto, unfolding(crate::specs::Runs::first_in))]
fn first_at(dist: &[u16; 1000], p: u16, i: u16) -> bool
    requires { (1 ≤ i) × (i ≤ 1000) }
    ensures { result ≡ first_in dist.now p i }
{
    i <= 1 || load(dist, i - 1) != p
}

// the last of the starts that stand side by side from the start i on
// It stays a `while`: what is read just after a place says whether to go on, which an iterator makes no plainer.
fn last_at(dist: &[u16; 1000], p: u16, i: u16) -> u16
    requires { Near p dist.now × (1 ≤ i) × (i ≤ 1000) × (at dist.now i ≡ p) }
    ensures { (result ≡ last_in dist.now p i) × (result + p ≤ 1000) }
{
    let mut j = i;
    while load(dist, j + 1) == p {
        j += 1;
    }
    j
}

// the run that begins at a start i, if one does; returns the number of runs
pub fn run_one(out: &mut [u16], dist: &[u16; 1000], p: u16, i: u16, k: usize) -> usize
    requires { Near p dist.now × (1 ≤ i) × (i ≤ 1000) × (at dist.now i ≡ p) × (k ≤ many) }
    ensures { Adds run_size k result (run_in dist.now p i) out.old out.new × (result ≤ k + 1) }
{
    if !first_at(dist, p, i) {
        return k;
    }
    let t = last_at(dist, p, i);
    add_run(out, k, i, t + 2 * p - 1, p);
    k + 1
}
