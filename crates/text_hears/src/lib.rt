// What `list` answers for a line of standard input, once for both programs: its list is made in mode 0, and a line over the limit is refused with its true
// length, however many bytes of it are kept. `hear` promises the answer and the list of whatever line it is (`Hears`).
#![tactic(auto)]

ghost use Rattle.std.specs.Prelude.{◌≤◌, length};
ghost use Rattle.words.specs.Answers.{counted_says};
ghost use Rattle.text_hears.specs.Heard.{Hears};

use read_edges::MOST;
use words::Refusal;

// the list of a line of `len` bytes: the bytes that are kept of a longer line are not the read, so it is refused here
pub fn hear(line: &[u8], len: usize, list: &mut [u16]) -> Result<usize, Refusal>
    requires { 1001 ≤ length line.now }
    ensures { Hears line.now len list.old (counted_says result) list.new }
{
    let over = MOST < len;
    if over {
        return Err(Refusal::TooLong(len));
    }
    call_lists::list(&line[..len], 0, list)
}
