// The text that the printing program prints for one line of standard input, collected into a buffer: document 01's answer for the read, or a refusal with the
// line's true length where it is over the limit. `answer` promises the text byte by byte (`printed`).
#![tactic(auto)]

ghost use Rattle.std.specs.Prelude.{◌≤◌, length};
ghost use Rattle.print_lines.specs.Output.{Spacious, Collected};

use text_outs::Out;
use text_pipes::Pipes;

// collects the text for one line
pub fn answer(
    pipes: Pipes,
    line: &[u8],
    len: usize,
    list: &mut [u16],
    buf: &mut [u8],
    start: Out,
) -> Out
    requires { (1001 ≤ length line.now) × Spacious list.old buf.old start.used }
    ensures { Collected line.now len list.old buf.old start buf.new result }
{
    let found = text_hears::hear(line, len, list);
    let o = text_outs::room(pipes, buf, 6 * list.len() + 64, start);
    let at = o.used;
    let n = text_answers::write_answer(len, found, list, &mut buf[at..]);
    Out {
        used: at + n,
        ok: o.ok,
    }
}
