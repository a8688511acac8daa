// The claim check, and the motif of a claim. Both answer any read and any numbers.
// `claim` promises the verdict that is true: refusal 1 for a read over the limit; else outside, then a shorter motif with its length, then yes or the copy count.
// `motif` promises a part of the read, by its bytes and by where it starts: the motif of a yes, the root where `claim` names one, and else the empty part at the read's
// front. `motif_part` gives its place and its count.
#![tactic(auto)]

ghost use Rattle.std.specs.Prelude.{◌≡◌, ◌+◌};
ghost use Rattle.words_claims.specs.Claims.{outside};
ghost use Rattle.words_claims.specs.Calls.{claimed_says, claim_answer, motif_length, motif as motif_bytes, motif_from};
ghost use Rattle.call_claims.specs.Parts.{motif_part};

use call_copies::{copies_at, root_at};
use read_edges::check_length;
use words::Refusal;
use words_claims::Verdict;

// A part of a read, as C is handed it: where it starts, counted from 0, and how many bytes it has.
#[repr(C)]
#[derive(Drop)]
pub struct Part {
    pub from: usize,
    pub count: usize,
}

// do start, period or copies lie outside the read: a 0 among the three, or a last byte beyond the read?
fn is_outside(read: &[u8], start: u32, period: u32, copies: u32) -> bool
    ensures { result ≡ outside read.now start period copies }
{
    // returned early: what is added up below is above 0
    if start == 0 || period == 0 || copies == 0 {
        return true;
    }
    // of three u32 numbers this fits
    let last = start as usize + period as usize * copies as usize - 1;
    read.len() < last
}

// the claim check
pub fn claim(read: &[u8], start: u32, period: u32, copies: u32) -> Result<Verdict, Refusal>
    ensures { claimed_says result ≡ claim_answer read.now start period copies }
{
    check_length(read)?;
    if is_outside(read, start, period, copies) {
        return Ok(Verdict::Outside);
    }
    let root = root_at(read, start, period);
    if root < period as usize {
        return Ok(Verdict::Shorter(root));
    }
    let count = copies_at(read, start, period);
    let twice = 2 <= copies;
    if twice && count == copies as usize {
        return Ok(Verdict::Yes);
    }
    Ok(Verdict::Copies(count))
}

// how many bytes from the claimed start on are handed back: the motif of a yes, the root that is named, or none
fn motif_length(read: &[u8], start: u32, period: u32, copies: u32) -> usize
    ensures { result ≡ motif_length read.now start period copies }
{
    match claim(read, start, period, copies) {
        Ok(Verdict::Yes) => period as usize,
        Ok(Verdict::Shorter(root)) => root,
        Ok(Verdict::Copies(_)) => 0,
        Ok(Verdict::Outside) => 0,
        Err(_) => 0,
    }
}

// the motif of a true claim, or the root of one that is a shorter motif repeated, as that part of the read; and else the empty part at the read's front. Equal bytes can
// stand at other places of the read, so the contract says besides the bytes where the part starts: in the read's block, so many bytes after its start
pub fn motif<'a>(read: &'a [u8], start: u32, period: u32, copies: u32) -> &'a [u8]
    ensures { (result.now ≡ motif_bytes read.now start period copies)
        × (result.ref_ptr.0 ≡ read.entry.ref_ptr.0)
        × (result.ref_ptr.1 ≡ read.entry.ref_ptr.1 + motif_from read.now start period copies) }
{
    let count = motif_length(read, start, period, copies);
    if count == 0 {
        return &read[..0];
    }
    let from = start as usize - 1;
    let to = from + count;
    &read[from..to]
}

// the same part by its place and its count, for those who are handed no part of a slice
pub fn motif_part(read: &[u8], start: u32, period: u32, copies: u32) -> Part
    ensures { result ≡ motif_part read.now start period copies }
{
    let count = motif_length(read, start, period, copies);
    if count == 0 {
        return Part { from: 0, count: 0 };
    }
    Part {
        from: start as usize - 1,
        count,
    }
}
