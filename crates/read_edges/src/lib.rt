// What the calls share at their edges: the largest read, the refusal of a larger one, the last width of a read's log, and names written to the front of a lent slice.
// The contracts settle each number of the slice.
#![tactic(auto)]

ghost use Rattle.std.specs.Prelude.{◌≡◌, ◌++◌, ◌≤◌, ◌<◌, length, drop, OnOk, IfErr};
ghost use Rattle.words.specs.Reads.{most};
ghost use Rattle.words.specs.Moves.{top_of};
ghost use Rattle.slots.specs.Slots.{view};

use slots::wide;
use words::Refusal;

// the most bytes that a read may have
pub const MOST: usize = 1000;

// refusal 1, the first of every call that takes a read
pub fn check_length(read: &[u8]) -> Result<(), Refusal>
    ensures ok { OnOk result (length read.now ≤ most) }
    ensures err { IfErr result (λ why. (most < length read.now) × (why ≡ Refusal.TooLong (length read.now))) }
{
    if MOST < read.len() {
        return Err(Refusal::TooLong(read.len()));
    }
    Ok(())
}

// the last period that a read of n bytes can have, and the last width that its log leads to; 1 for the shortest reads
#[tactic(auto, unfolding(words::specs::Moves::top_of))]
pub fn top_of(n: u16) -> u16
    ensures { result ≡ top_of n }
{
    (n / 2).max(1)
}

// the first n names go to the front of `out`
#[tactic(auto, unfolding(slots::specs::Slots::view))]
pub fn copy_names(out: &mut [u16], name: &[u16; 1000], n: u16)
    requires { (n ≤ 1000) × (n ≤ length out.old) × (length name.now ≡ 1000) }
    ensures { out.new ≡ view n name.now ++ drop n out.old }
{
    let k = wide(n);
    out[..k].copy_from_slice(&name[..k]);
}
