// The runs of a read, with the partial copy. `runs` answers any read and slice; its contract settles the answer and the slice afterwards.
#![tactic(auto)]

ghost use Rattle.std.specs.Prelude.{◌≡◌};
ghost use Rattle.words.specs.Answers.{counted_says};
ghost use Rattle.words_runs.specs.Calls.{runs_answer, runs_leaves};

use call_widths::run_widths;
use read_edges::check_length;
use row_cells::clear;
use row_runs::room;
use words::Refusal;

// The runs of a read, start, end and period of each, by period, then start, to the front of `out`.
pub fn runs(read: &[u8], out: &mut [u16]) -> Result<usize, Refusal>
    ensures { (counted_says result ≡ runs_answer read.now out.old)
        × (out.new ≡ runs_leaves read.now out.old) }
{
    check_length(read)?;
    let count = run_widths(out, read);
    if room(out) < count {
        clear(out);
        return Err(Refusal::ListFull(count));
    }
    Ok(count)
}
