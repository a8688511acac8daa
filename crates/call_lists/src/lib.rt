// The list of a read's repeats. `list` answers any read, mode and slice; its contract settles the answer and the slice afterwards.
#![tactic(auto)]

ghost use Rattle.std.specs.Prelude.{◌≡◌};
ghost use Rattle.words.specs.Answers.{counted_says};
ghost use Rattle.words.specs.Calls.{list_answer, list_leaves};

use call_widths::list_widths;
use read_edges::check_length;
use row_cells::clear;
use row_lines::room;
use words::Refusal;

// The list of a read's repeats, all in mode 0 and the leading ones in mode 1, to the front of `out`.
pub fn list(read: &[u8], mode: u32, out: &mut [u16]) -> Result<usize, Refusal>
    ensures { (counted_says result ≡ list_answer read.now mode out.old)
        × (out.new ≡ list_leaves read.now mode out.old) }
{
    check_length(read)?;
    if 1 < mode {
        return Err(Refusal::OutOfRange(mode));
    }
    let count = list_widths(out, read, mode).rows;
    if room(out) < count {
        clear(out);
        return Err(Refusal::ListFull(count));
    }
    Ok(count)
}
