// A line at the bench: the list, the log and the runs of its read are made, and from them its view is collected, or the refusal of its list.
#![tactic(auto)]

ghost use Rattle.std.specs.Prelude.{◌≡◌, ◌*◌, ◌≤◌, length, take};
ghost use Rattle.words.specs.Reads.{most};
ghost use Rattle.words.specs.Lists.{line_size, lines, line_count, in_mode};
ghost use Rattle.bench_shows.specs.Collecting.{Roomy, Collects};
ghost use Rattle.bench_widths.specs.Reaching.{Own};
ghost use Rattle.bench_reads.specs.Views.{read_view};
ghost use Rattle.bench_reads.specs.Steps.{Viewed};

use bench_shows::{collect_accord, collect_head, collect_refusal, collect_verdict, first_differ};
use bench_widths::{show_widths, widths};
use row_lines::{line_size, room};
use row_moves::move_size;
use row_runs::run_size;
use text_outs::Out;
use text_pipes::Pipes;

// shows a read from its own log, list and runs
fn show_lists(
    pipes: Pipes,
    read: &[u8],
    log: &[u16],
    list: &[u16],
    runs: &[u16],
    buf: &mut [u8],
    start: Out,
) -> Out
    requires { Own read.now log.now list.now runs.now × Roomy buf.old start.used }
    ensures { Collects buf.old start (read_view read.now) buf.new result }
{
    let o = collect_head(pipes, read, buf, start);
    let p = show_widths(pipes, read, log, list, runs, buf, o);
    let whole = p.listed == room(list);
    let out = p.out;
    let differ = first_differ(p.differ, whole, widths(read.len()) + 1);
    let o = collect_verdict(pipes, differ, buf, out);
    collect_accord(pipes, list, runs, buf, o)
}

// shows a read whose list of `count` lines is made; the log has room for that of any read, and no read has more runs than lines
fn show_read(
    pipes: Pipes,
    read: &[u8],
    list: &[u16],
    count: usize,
    buf: &mut [u8],
    start: Out,
) -> Out
    requires { (length read.now ≤ most) × (line_size * count ≤ length list.now) × (take (line_size * count) list.now ≡ lines read.now (in_mode read.now 0))
        × (line_count read.now (in_mode read.now 0) ≤ 10000) × Roomy buf.old start.used }
    ensures { Collects buf.old start (read_view read.now) buf.new result }
{
    let mut log = [0u16; 29970];
    let found = call_logs::log(read, &mut log).unwrap();
    let moves = move_size() * found;
    let mut runs = [0u16; 30000];
    let maximal = call_runs::runs(read, &mut runs).unwrap();
    let ran = run_size() * maximal;
    let size = line_size() * count;
    show_lists(
        pipes,
        read,
        &log[..moves],
        &list[..size],
        &runs[..ran],
        buf,
        start,
    )
}

// shows the read of a line of `len` bytes, or says why its list was refused; the list has room for 10,000 lines
pub fn show(pipes: Pipes, line: &[u8], len: usize, buf: &mut [u8], start: Out) -> Out
    requires { (1001 ≤ length line.now) × Roomy buf.old start.used }
    ensures { Viewed line.now len buf.old start buf.new result }
{
    let mut list = [0u16; 30000];
    match text_hears::hear(line, len, &mut list) {
        Ok(count) => show_read(pipes, &line[..len], &list, count, buf, start),
        Err(why) => {
            let a = call_answers::refused(why);
            collect_refusal(pipes, a.number as u64, a.value, buf, start)
        }
    }
}
