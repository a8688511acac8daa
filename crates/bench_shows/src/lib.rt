// One width of a read shown from its table, and the other lines of the view: each text is collected behind what was collected before, once
// there is room for the longest one. `show_table` cuts out the width's parts of the log, of the list and of the runs, and compares the list with the groups;
// `collect_accord` compares the list with the runs. Each `collect_..` makes room and puts its text there: one function that takes the text as a closure
// would have a contract over what that closure leaves in the buffer, longer than these bodies.
#![tactic(auto)]

ghost use Rattle.std.specs.Prelude.{◌≡◌, ◌∷◌, [], ◌^◌, ◌≤◌, ◌<◌, length};
ghost use Rattle.words.specs.Reads.{most};
ghost use Rattle.words.specs.Rows.{rows};
ghost use Rattle.words.specs.Lists.{line_size};
ghost use Rattle.words.specs.Moves.{move_size};
ghost use Rattle.words_runs.specs.Runs.{run_size};
ghost use Rattle.words_agree.specs.Lists.{agree};
ghost use Rattle.text_answers.specs.Texts.{refused_text};
ghost use Rattle.text_views.specs.Views.{width_text, head_text, verdict_text, accord_text};
ghost use Rattle.bench_shows.specs.Collecting.{Roomy, Collects};
ghost use Rattle.bench_shows.specs.Places.{Brief, moves_from, lines_from, runs_from, first_differ, Shown};

use bench_accords::runs_agree;
use bench_agrees::part_from;
use row_lines::{line_size, period_cell};
use row_moves::{entries, move_size, width_cell};
use row_runs::{run_period_cell, run_size};
use text_answers::put_refused;
use text_outs::{Out, room};
use text_pipes::Pipes;
use text_views::{put_accord, put_head, put_verdict, put_width};

// collects the first line of a read's view
pub fn collect_head(pipes: Pipes, read: &[u8], buf: &mut [u8], start: Out) -> Out
    requires { (length read.now ≤ most) × Roomy buf.old start.used }
    ensures { Collects buf.old start (head_text read.now) buf.new result }
{
    let o = room(pipes, buf, 4 * read.len() + 27, start);
    let end = put_head(buf, o.used, read);
    Out { used: end, ..o }
}

// collects the text of one width
fn collect_width(
    pipes: Pipes,
    w: usize,
    table: &[u16],
    moves: &[u16],
    lines: &[u16],
    runs: &[u16],
    buf: &mut [u8],
    start: Out,
) -> Out
    requires { Brief table.now moves.now lines.now runs.now × Roomy buf.old start.used }
    ensures { Collects buf.old start (width_text w table.now moves.now lines.now runs.now)
        buf.new result }
{
    let rows = row_lines::room(lines) + row_runs::room(runs);
    let need = 27 * (table.len() + entries(moves)) + 57 * rows + 64;
    let o = room(pipes, buf, need, start);
    let end = put_width(buf, o.used, w, table, moves, lines, runs);
    Out { used: end, ..o }
}

// collects the last line but one, by the first width at which list and groups differ, 0 for none
pub fn collect_verdict(pipes: Pipes, w: usize, buf: &mut [u8], start: Out) -> Out
    requires { Roomy buf.old start.used }
    ensures { Collects buf.old start (verdict_text w) buf.new result }
{
    let o = room(pipes, buf, 64, start);
    let end = put_verdict(buf, o.used, w);
    Out { used: end, ..o }
}

// collects the last line: do this list and these runs agree?
pub fn collect_accord(pipes: Pipes, list: &[u16], runs: &[u16], buf: &mut [u8], start: Out) -> Out
    requires { Roomy buf.old start.used }
    ensures { Collects buf.old start (accord_text (agree list.now runs.now)) buf.new result }
{
    let agree = runs_agree(list, runs);
    let o = room(pipes, buf, 64, start);
    let end = put_accord(buf, o.used, agree);
    Out { used: end, ..o }
}

// collects a refusal
pub fn collect_refusal(pipes: Pipes, number: u64, value: u64, buf: &mut [u8], start: Out) -> Out
    requires { (number < 2 ^ 32) × Roomy buf.old start.used }
    ensures { Collects buf.old start (refused_text number (value ∷ [])) buf.new result }
{
    let o = room(pipes, buf, 64, start);
    let end = put_refused(buf, o.used, number, value);
    Out { used: end, ..o }
}

// the first width at which list and groups differ, after one width more; 0 while they agree: tried as an Option, of whose number nothing says that it
// fits its type, so the bound of the line's length did not close
#[tactic(auto, unfolding(crate::specs::Places::first_differ))]
pub fn first_differ(differ: usize, agree: bool, w: usize) -> usize
    ensures { result ≡ first_differ differ agree w }
{
    if differ == 0 && !agree { w } else { differ }
}

// the place reached between two widths: the moves, lines and runs passed, the first width at which list and groups differ, and what is collected
#[derive(Drop)]
pub struct Place {
    pub moved: usize,
    pub listed: usize,
    pub ran: usize,
    pub differ: usize,
    pub out: Out,
}

// shows one width, from its table, and compares
pub fn show_table(
    pipes: Pipes,
    table: &[u16],
    log: &[u16],
    list: &[u16],
    runs: &[u16],
    w: usize,
    buf: &mut [u8],
    p: Place,
) -> Place
    requires { Brief table.now (moves_from log.now w p) (lines_from list.now w p) (runs_from runs.now w p) × Roomy buf.old p.out.used
        × (p.moved ≤ rows move_size log.now) × (p.listed ≤ rows line_size list.now) × (p.ran ≤ rows run_size runs.now) }
    ensures { Shown table.now log.now list.now runs.now w buf.old p buf.new result }
{
    let from = p.moved;
    let start = p.listed;
    let first = p.ran;
    let o = p.out;
    let moves = part_from(log, move_size(), width_cell(), w, from);
    let moved = from + entries(moves);
    let lines = part_from(list, line_size(), period_cell(), w, start);
    let listed = start + row_lines::room(lines);
    let maximal = part_from(runs, run_size(), run_period_cell(), w, first);
    let ran = first + row_runs::room(maximal);
    let after = collect_width(pipes, w, table, moves, lines, maximal, buf, o);
    let agree = bench_agrees::agree_at(table, w, lines);
    Place {
        moved,
        listed,
        ran,
        differ: first_differ(p.differ, agree, w),
        out: after,
    }
}
