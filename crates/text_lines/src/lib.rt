// Bytes cut into lines: the part of a chunk up to the next newline, behind what is already there of the line. A line may be longer than memory: as many of its
// bytes as the line buffer has room for are kept, and the rest is counted. specs/Lines.antt says what the lines of an input are.
#![tactic(auto)]

ghost use Rattle.std.specs.Prelude.{◌≡◌, ◌≤◌, length};
ghost use Rattle.text_lines.specs.Lines.{newline_in, kept};
ghost use Rattle.text_lines.specs.Parts.{Taken};

// the byte that ends a line
const NEWLINE: u8 = b'\n';

// the place of the first newline, if there is one
fn newline(bytes: &[u8]) -> Option<usize>
    ensures { result ≡ newline_in bytes.now }
{
    bytes.iter().position(|b| *b == NEWLINE)
}

// keeps the bytes of a part, as far as the line has room
fn keep(part: &[u8], line: &mut [u8], len: usize)
    ensures { line.new ≡ kept line.old len part.now }
{
    let at = len.min(line.len());
    let n = part.len().min(line.len() - at);
    line[at..at + n].copy_from_slice(&part[..n]);
}

// what a part of a chunk leaves: the line's length with it, and where the chunk goes on if a newline ended it
#[derive(Drop)]
pub struct Part {
    pub len: usize,
    pub next: Option<usize>,
}

// takes the part of a chunk from a place on, up to the next newline or to its end, behind a line of `len` bytes
pub fn take_part(chunk: &[u8], from: usize, line: &mut [u8], len: usize) -> Part
    requires { from ≤ length chunk.now }
    ensures { Taken chunk.now from line.old len line.new result }
{
    let rest = &chunk[from..];
    let found = newline(rest);
    let n = found.unwrap_or(rest.len());
    keep(&rest[..n], line, len);
    Part {
        len: len.saturating_add(n),
        next: found.map(|i| from + i + 1),
    }
}
