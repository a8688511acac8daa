// A list of lines compared with the lines that should stand there, one after another as they are made: how far they agree, one line more, and whether nothing is left
// over. The lines may come from anywhere: the bench makes them from groups and from runs.
#![tactic(auto)]

ghost use Rattle.std.specs.Prelude.{◌≡◌, ◌≤◌, length};
ghost use Rattle.words.specs.Lists.{line_of};
ghost use Rattle.row_matches.specs.Matching.{reached, nothing, passed, at_end};

use row_lines::{is_line, line_size};

// before the first line: `Ok` while they agree, `Err` once they differed, and how many numbers of the list are passed either way
pub fn begin() -> Result<usize, usize>
    ensures { result ≡ nothing }
{
    Ok(0)
}

// one line more
pub fn pass_line(
    list: &[u16],
    m: Result<usize, usize>,
    start: usize,
    period: usize,
    copies: usize,
) -> Result<usize, usize>
    requires { reached m ≤ length list.now }
    ensures { result ≡ passed (line_of start period copies) list.now m }
{
    let at = match m {
        Ok(at) => at,
        Err(at) => at,
    };
    if !is_line(list, at, start, period, copies) {
        return Err(at);
    }
    let next = at + line_size();
    match m {
        Ok(_) => Ok(next),
        Err(_) => Err(next),
    }
}

// after the last line: do they agree, and is the list at its end?
pub fn ended(list: &[u16], m: Result<usize, usize>) -> bool
    ensures { result ≡ at_end list.now m }
{
    m == Ok(list.len())
}
