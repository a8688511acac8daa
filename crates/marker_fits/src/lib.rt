// The leading repeats of a read that have a motif and lie between two positions. `fit` promises the only one, or that there is none or more than one. The motif gives the period, so
// that the starts are tried one by one, without a list: the motif is compared with the bytes there, and only where it stands and leads are its copies counted. That a motif
// is primitive is asked once, of the motif alone.
#![tactic(auto)]

ghost use Rattle.std.specs.Prelude.{◌≡◌, true, suc, ◌+◌, ◌-◌, ◌*◌, ◌≤◌, length};
ghost use Rattle.std.specs.Option.{IfSome, unwrap_or};
ghost use Rattle.words.specs.Range.{first};
ghost use Rattle.words.specs.Reads.{most};
ghost use Rattle.words.specs.Repeats.{primitive};
ghost use Rattle.words_markers.specs.Fits.{fitting, fittings};
ghost use Rattle.words_markers.specs.Sites.{only_one};

use call_copies::{copies_at, is_leading, root_at};
use marker_bytes::same_bytes;
use words::Refusal;

// does a leading repeat with this motif, which is primitive, start at position i and end before `to`?
fn fits_at(read: &[u8], motif: &[u8], i: usize, to: usize) -> bool
    requires { (1 ≤ i) × (1 ≤ length motif.now) × (i + 2 * length motif.now ≤ to) × (to ≤ suc (length read.now)) × (length read.now ≤ most) × (primitive motif.now 1 (length motif.now) ≡ true) }
    ensures { result ≡ fitting read.now motif.now 0 to i }
{
    let from = i - 1;
    let p = motif.len();
    let start = i as u32;
    let period = p as u32;
    // returned early: copies are counted where a repeat starts
    if !same_bytes(&read[from..from + p], motif) || !is_leading(read, start, period) {
        return false;
    }
    let copies = copies_at(read, start, period);
    let twice = 2 <= copies;
    twice && i + p * copies <= to
}

// the first position from `from` on at which one starts, if there is one
fn next_fit(read: &[u8], motif: &[u8], from: usize, to: usize) -> Option<usize>
    requires { (1 ≤ from) × (from ≤ suc (length read.now)) × (1 ≤ length motif.now) × (2 * length motif.now ≤ length read.now) × (to ≤ suc (length read.now)) × (length read.now ≤ most) × (primitive motif.now 1 (length motif.now) ≡ true) }
    ensures { (unwrap_or result (suc (length read.now)) ≡ first (fitting read.now motif.now 0 to) (suc (length read.now) - from) from)
        × IfSome result (λ i. i ≤ length read.now) }
{
    let end = (to + 1).saturating_sub(2 * motif.len());
    (from..end).find(|i| fits_at(read, motif, *i, to))
}

// the only leading repeat that has the motif and lies wholly between: from `from` on, and before `to`. One that is empty, not primitive, or longer than half the
// read is no repeat's motif
pub fn fit(read: &[u8], motif: &[u8], from: usize, to: usize) -> Result<usize, Refusal>
    requires { (1 ≤ from) × (from ≤ suc (length read.now)) × (to ≤ suc (length read.now)) × (length read.now ≤ most) }
    ensures { result ≡ only_one (fittings read.now motif.now from to) }
{
    let p = motif.len();
    if p < 1 || read.len() / 2 < p {
        return Err(Refusal::NoRepeat);
    }
    if root_at(motif, 1, p as u32) < p {
        return Err(Refusal::NoRepeat);
    }
    let Some(first) = next_fit(read, motif, from, to) else {
        return Err(Refusal::NoRepeat);
    };
    if next_fit(read, motif, first + 1, to).is_some() {
        return Err(Refusal::Several);
    }
    Ok(first)
}
