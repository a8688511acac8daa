// The text of the bench view: of one width, from its table of groups, its moves, and the list's lines and the runs of that period; the first line of a read and the
// last two. Each function promises its text byte by byte, the place after it, and that the rest of the buffer is as it was.
#![tactic(auto)]

ghost use Rattle.std.specs.Prelude.{◌≤◌, ◌<◌};
ghost use Rattle.words.specs.Rows.{rows};
ghost use Rattle.text_puts.specs.Puts.{Room, Puts};
ghost use Rattle.text_views.specs.Views.{row_text, rows_text, width_text, head_text, verdict_text, accord_text};

use row_cells::{count, part};
use row_lines::line_size;
use row_runs::run_size;
use text_bytes::put_bytes;
use text_groups::put_table;
use text_moves::put_moves;
use text_puts::{put_number, put_numbers, put_word};

// row k of a list of rows of c numbers, behind a word that says what it is
fn put_row(buf: &mut [u8], at: usize, word: &[u8], list: &[u16], c: usize, k: usize) -> usize
    requires { (k < rows c list.now) × Room buf.old at (row_text word.now c list.now k) }
    ensures { Puts buf.old at (row_text word.now c list.now k) buf.new result }
{
    let row = part(list, c, k, k + 1);
    let next = put_word(buf, at, word);
    put_numbers(buf, next, row)
}

// the rows, each on a line of its own
fn put_rows(buf: &mut [u8], at: usize, word: &[u8], list: &[u16], c: usize) -> usize
    requires { (1 ≤ c) × Room buf.old at (rows_text word.now c list.now) }
    ensures { Puts buf.old at (rows_text word.now c list.now) buf.new result }
{
    let rows = count(list, c);
    let mut next = at;
    for k in 0..rows {
        next = put_row(buf, next, word, list, c, k);
    }
    next
}

// one width
pub fn put_width(
    buf: &mut [u8],
    at: usize,
    w: usize,
    table: &[u16],
    moves: &[u16],
    lines: &[u16],
    runs: &[u16],
) -> usize
    requires { Room buf.old at (width_text w table.now moves.now lines.now runs.now) }
    ensures { Puts buf.old at (width_text w table.now moves.now lines.now runs.now) buf.new result }
{
    let next = put_word(buf, at, b"width ");
    let next = put_number(buf, next, w as u64, b'\n');
    let next = put_table(buf, next, table);
    let next = put_moves(buf, next, moves);
    let next = put_rows(buf, next, b"  repeat ", lines, line_size());
    put_rows(buf, next, b"  run ", runs, run_size())
}

// the first line of a read's view
pub fn put_head(buf: &mut [u8], at: usize, read: &[u8]) -> usize
    requires { Room buf.old at (head_text read.now) }
    ensures { Puts buf.old at (head_text read.now) buf.new result }
{
    let next = put_word(buf, at, b"read ");
    let next = put_number(buf, next, read.len() as u64, b' ');
    let next = put_bytes(buf, next, read);
    put_word(buf, next, b"\n")
}

// the last line but one, by the first width at which list and groups differ, 0 for none
pub fn put_verdict(buf: &mut [u8], at: usize, w: usize) -> usize
    requires { Room buf.old at (verdict_text w) }
    ensures { Puts buf.old at (verdict_text w) buf.new result }
{
    let agree = w == 0;
    if agree {
        return put_word(buf, at, b"list and groups agree at every width\n");
    }
    let next = put_word(buf, at, b"list and groups differ at width ");
    put_number(buf, next, w as u64, b'\n')
}

// the last line: do repeats and runs agree?
pub fn put_accord(buf: &mut [u8], at: usize, agree: bool) -> usize
    requires { Room buf.old at (accord_text agree) }
    ensures { Puts buf.old at (accord_text agree) buf.new result }
{
    if agree {
        return put_word(buf, at, b"repeats and runs agree\n");
    }
    put_word(buf, at, b"repeats and runs differ\n")
}
