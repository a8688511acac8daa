// Runs `runs` (document 02, item 3) at the edge of its room, with the slices before and after, and at the limit of a read. What it gives for the stored reads
// stands in their results.
#![tactic(auto)]

ghost use Rattle.std.specs.Prelude.{◌≤◌};

use call_answers::counted;
use call_runs::runs;
use run_prints::shown;

// on so many sevens
fn runs_in(rt: &impl Print, read: &[u8], room: usize)
    requires { room ≤ 18 }
{
    let out = &mut [7; 18][..room];
    shown(rt, "runs", out, |out| counted(runs(read, out)))
}

// one run, and a list cut short; two runs of one period that overlap
fn short(rt: &impl Print) {
    let calls: [(&[u8], usize); 9] = [
        (b"ACACACA", 4),
        (b"ACACACA", 3),
        (b"ACACACA", 2),
        (b"ACACACA", 0),
        (b"AACAACCACC", 18),
        (b"AACAACCACC", 17),
        (b"AAAA", 5),
        (b"NNNN", 0),
        (b"", 2),
    ];
    for (read, room) in calls {
        runs_in(rt, read, room);
    }
}

// 1,000 bytes pass; 1,001 give refusal 1 and leave the slice, where there is room and, before refusal 3, where there is none
fn limits(rt: &impl Print) {
    let within = [b'A'; 1000];
    runs_in(rt, &within, 3);
    runs_in(rt, &within, 2);
    let over = [b'A'; 1001];
    runs_in(rt, &over, 4);
    runs_in(rt, &over, 2)
}

pub fn run(rt: &impl Print) {
    short(rt);
    limits(rt)
}
