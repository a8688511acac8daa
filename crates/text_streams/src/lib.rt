// Standard input cut into lines, and standard output collected into large writes. A turn takes the bytes that are there up to the next newline
// or, where there is none, writes out what is collected and makes one read call: a program that waits for more has said all that it knows.
// `run` is the loop of turns, over what a program answers to a line (`Answers`).
// The contracts speak of all that read calls gave and write calls took (`text_pipes`): specs/Programs.antt says what a program then owes.
#![tactic(auto)]

ghost use Rattle.std.specs.Prelude.{◌≡◌, ◌≤◌, ℕ, List, length};
ghost use Rattle.text_streams.specs.Cuts.{Within, stopped, Waited, Turned};
ghost use Rattle.text_streams.specs.Programs.{beginning, going, Ready, Answered, Advances, Stopped, Ran};

use text_lines::take_part;
use text_outs::{Out, flush};
use text_pipes::{Pipes, STDIN_FILENO};

// where the input goes on: the bytes of the last read call from `from` to `end` are not taken yet, and `len` bytes of a line came before them;
// `more` is false once the input has ended, or a read or a write failed
#[derive(Clone, Copy)]
pub struct Source {
    pub from: usize,
    pub end: usize,
    pub len: usize,
    pub more: bool,
}

// where a program stands between two turns
#[derive(Clone, Copy)]
pub struct State {
    pub source: Source,
    pub out: Out,
}

// what a turn found: a line of so many bytes, or none yet
#[derive(Drop)]
pub struct Next {
    pub line: Option<usize>,
    pub state: State,
}

// does a program go on?
pub fn goes_on(s: State) -> bool
    ensures { result ≡ going s }
{
    s.source.more && s.out.ok
}

// where every program begins
pub fn begin() -> State
    ensures { result ≡ beginning }
{
    let source = Source {
        from: 0,
        end: 0,
        len: 0,
        more: true,
    };
    let out = Out { used: 0, ok: true };
    State { source, out }
}

// no line follows: the input has ended, or a read or a write failed
fn stop(line: Option<usize>, len: usize, out: Out) -> Next
    ensures { result ≡ stopped line len out }
{
    let source = Source {
        from: 0,
        end: 0,
        len,
        more: false,
    };
    let state = State { source, out };
    Next { line, state }
}

// one read call behind a line of `len` bytes: at the end of the input the line counts if it is not empty, and after a failure it does not
fn fill(pipes: Pipes, input: &mut [u8], len: usize, out: Out) -> Next
    ensures { Waited len out input.new result }
{
    if !out.ok {
        return stop(None, len, out);
    }
    match text_pipes::ask(pipes, STDIN_FILENO, input) {
        Ok(end) if 0 < end => {
            let source = Source {
                from: 0,
                end,
                len,
                more: true,
            };
            let state = State { source, out };
            Next { line: None, state }
        }
        Ok(_) => stop((0 < len).then_some(len), len, out),
        Err(why) => {
            text_pipes::tell_unread(pipes, len, why);
            stop(None, len, out)
        }
    }
}

// the bytes that are there up to the next newline; where there is none, what is collected is written out, and one read call is made
pub fn turn(pipes: Pipes, input: &mut [u8], line: &mut [u8], buf: &[u8], s: State) -> Next
    requires { Within input.old s.source × (s.out.used ≤ length buf.now) }
    ensures { Turned input.old line.old buf.now s input.new line.new result }
{
    let source = s.source;
    let o = s.out;
    let end = source.end;
    let p = take_part(&input[..end], source.from, line, source.len);
    if let Some(next) = p.next {
        let source = Source {
            from: next,
            end,
            len: 0,
            more: true,
        };
        let state = State { source, out: o };
        return Next {
            line: Some(p.len),
            state,
        };
    }
    let out = flush(pipes, buf, o);
    fill(pipes, input, p.len, out)
}

// who answers the lines of the input, each with a text
pub trait Answers {
    ghost text: { Self → List ℕ → List ℕ };

    // for how many bytes the buffer of the texts has room, at least
    ghost need: { Self → ℕ };

    // collects the text of a line of `len` bytes; the lines behind it are answered alike
    fn answer(&mut self, pipes: Pipes, line: &[u8], len: usize, buf: &mut [u8], start: Out) -> Out
        requires { Ready (need self.old) line.now buf.old start.used }
        ensures collects { Answered (text self.old) line.now len buf.old start buf.new result }
        ensures same { (text self.new ≡ text self.old) × (need self.new ≡ need self.old) };
}

// one turn: the line that it found is answered
fn step<A: Answers>(
    pipes: Pipes,
    input: &mut [u8],
    line: &mut [u8],
    buf: &mut [u8],
    by: &mut A,
    s: State,
) -> State
    requires { Within input.old s.source × Ready (A.need by.old) line.old buf.old s.out.used }
    ensures advances { Advances (A.text by.old) input.old line.old buf.old s
        input.new line.new buf.new result }
    ensures same { (A.text by.new ≡ A.text by.old) × (A.need by.new ≡ A.need by.old) }
{
    let t = turn(pipes, input, line, buf, s);
    let after = t.state;
    if let Some(len) = t.line {
        let source = after.source;
        let out = by.answer(pipes, line, len, buf, after.out);
        return State { source, out };
    }
    after
}

// All lines, turn by turn. Nothing says that the input ends, so the turns are counted: no run uses them up.
fn all<A: Answers>(
    pipes: Pipes,
    input: &mut [u8],
    line: &mut [u8],
    buf: &mut [u8],
    by: &mut A,
) -> Out
    requires { Ready (A.need by.old) line.old buf.old 0 }
    ensures { (result.used ≤ length buf.new) × Stopped (A.text by.old) buf.new result }
{
    let mut s = begin();
    for _ in 0..u64::MAX {
        s = step(pipes, input, line, buf, by, s);
        let over = !goes_on(s);
        if over {
            return s.out;
        }
    }
    s.out
}

// all lines, and then all that is still collected is written
pub fn run<A: Answers>(pipes: Pipes, input: &mut [u8], line: &mut [u8], buf: &mut [u8], by: &mut A)
    requires { Ready (A.need by.old) line.old buf.old 0 }
    ensures { Ran (A.text by.old) }
{
    let o = all(pipes, input, line, buf, by);
    flush(pipes, buf, o);
}
