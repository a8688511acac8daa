// Where a primer sits in a read, and its reverse complement. Both calls answer any slices; their contracts settle the answer and the slice afterwards.
#![tactic(auto)]

ghost use Rattle.std.specs.Prelude.{◌≡◌, ◌++◌, ◌≤◌, length, drop, OnOk, IfErr};
ghost use Rattle.words_primers.specs.Primers.{reverse_complement};
ghost use Rattle.words.specs.Answers.{counted_says};
ghost use Rattle.call_primers.specs.Judged.{IsPrimer, IsRefused};
ghost use Rattle.words_primers.specs.Calls.{find_answer, find_leaves, turn_answer, turn_leaves};

use base_sets::turn;
use primer_judges::{first_foreign, good_length};
use primer_scans::scan;
use read_edges::check_length;
use row_cells::clear;
use words::Refusal;

// refusal 8, by the length, and then 9, by the first letter that is none of the code
fn judge(primer: &[u8]) -> Result<(), Refusal>
    ensures ok { OnOk result (IsPrimer primer.now) }
    ensures err { IfErr result (IsRefused primer.now) }
{
    let letters = primer.len();
    if !good_length(letters) {
        return Err(Refusal::BadLength(letters));
    }
    let foreign = first_foreign(primer);
    if foreign < letters {
        return Err(Refusal::Foreign(foreign));
    }
    Ok(())
}

// All positions at which a primer of 1 to 60 letters sits in a read, ascending, to the front of `out`.
pub fn find_primer(read: &[u8], primer: &[u8], out: &mut [u16]) -> Result<usize, Refusal>
    ensures { (counted_says result ≡ find_answer read.now primer.now out.old)
        × (out.new ≡ find_leaves read.now primer.now out.old) }
{
    check_length(read)?;
    judge(primer)?;
    let count = scan(out, read, primer);
    if out.len() < count {
        clear(out);
        return Err(Refusal::ListFull(count));
    }
    Ok(count)
}

// the letters from the last to the first, each turned
fn reverse(out: &mut [u8], primer: &[u8])
    requires { length primer.now ≤ length out.old }
    ensures { out.new ≡ reverse_complement primer.now ++ drop (length primer.now) out.old }
{
    for k in 0..primer.len() {
        out[k] = turn(primer[primer.len() - 1 - k]);
    }
}

// The reverse complement of a primer of 1 to 60 letters, to the front of `out`.
pub fn reverse_complement(primer: &[u8], out: &mut [u8]) -> Result<usize, Refusal>
    ensures { (counted_says result ≡ turn_answer primer.now out.old)
        × (out.new ≡ turn_leaves primer.now out.old) }
{
    judge(primer)?;
    let letters = primer.len();
    if out.len() < letters {
        return Err(Refusal::NoRoom(letters));
    }
    reverse(out, primer);
    Ok(letters)
}
