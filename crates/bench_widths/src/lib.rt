// The widths of a read shown one after another. The groups come from the replay of the read's log alone, which goes on by one width at a time:
// `r.name` holds the table of the width that is shown, and the log's entries of the width make it the next one.
#![tactic(auto)]

ghost use Rattle.std.specs.Prelude.{◌≡◌, ◌+◌, length};
ghost use Rattle.words.specs.Range.{gather};
ghost use Rattle.bench_shows.specs.Collecting.{Roomy, Collects};
ghost use Rattle.bench_widths.specs.Views.{width_view, widths_of};
ghost use Rattle.bench_widths.specs.Reaching.{Own, Reached};

use bench_shows::{Place, show_table};
use call_renames::{empty_rooms, replay_width};
use call_replays::first_groups;
use text_outs::Out;
use text_pipes::Pipes;

// how many widths are shown of a read of n bytes
pub fn widths(n: usize) -> usize
    ensures { result ≡ widths_of n }
{
    if n == 1 { 1 } else { n / 2 }
}

// shows every width of a read; the work rooms of the replay are empty between widths
pub fn show_widths(
    pipes: Pipes,
    read: &[u8],
    log: &[u16],
    list: &[u16],
    runs: &[u16],
    buf: &mut [u8],
    start: Out,
) -> Place
    requires { Own read.now log.now list.now runs.now × Roomy buf.old start.used }
    ensures { Reached read.now (widths_of (length read.now) + 1) result
        × Collects buf.old start (gather (width_view read.now) (widths_of (length read.now)) 1)
        buf.new result.out }
{
    let n = read.len();
    let top = widths(n) as u16;
    let mut r = empty_rooms();
    first_groups(&mut r.name, read, n as u16);
    let mut from = 0;
    let mut p = Place {
        moved: 0,
        listed: 0,
        ran: 0,
        differ: 0,
        out: start,
    };
    for w in 1..top + 1 {
        p = show_table(pipes, &r.name[..n], log, list, runs, w as usize, buf, p);
        from = replay_width(&mut r, log, n as u16, from, w);
    }
    p
}
