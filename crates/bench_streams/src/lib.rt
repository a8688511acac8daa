// The bench view: each line of standard input is shown as it is found, and the texts are written in large pieces (`text_streams`).
// What `run` promises is the whole of it: what the write calls took are the views of the lines of what the read calls gave.
#![tactic(auto)]

ghost use Rattle.std.specs.Prelude.{◌≤◌, length};
ghost use Rattle.bench_shows.specs.Collecting.{longest, Roomy};
ghost use Rattle.bench_reads.specs.Views.{viewed};
ghost use Rattle.text_streams.specs.Programs.{Ran};

use text_outs::Out;
use text_pipes::Pipes;
use text_streams::Answers;

// a view needs nothing from line to line
#[derive(Drop)]
struct Viewing;

impl Answers for Viewing {
    ghost text = { λ _. viewed };

    ghost need = { λ _. longest };

    fn answer(&mut self, pipes: Pipes, line: &[u8], len: usize, buf: &mut [u8], start: Out) -> Out {
        bench_reads::show(pipes, line, len, buf, start)
    }
}

// all lines, and then all that is still collected is written
pub fn run(pipes: Pipes, input: &mut [u8], line: &mut [u8], buf: &mut [u8])
    requires { (1001 ≤ length line.old) × Roomy buf.old 0 }
    ensures { Ran viewed }
{
    text_streams::run(pipes, input, line, buf, &mut Viewing);
}
