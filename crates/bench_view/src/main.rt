// Shows each read of standard input at the bench: width by width the groups, which the replay of the read's log alone gives, the moves, the list's lines and the
// runs; a line that says whether list and groups agree at every width, and a last one that says whether repeats and runs agree. `bench_streams` has the loop and its
// promise, `bench_reads` the view of a read, `bench_widths` its widths, and `bench_shows` what is shown of each.
#![tactic(auto)]

use bench_streams::run;
use text_pipes::Pipes;

fn main(rt: HostRuntime) {
    let help =
        b"bench_view reads lines from standard input and shows for each, width by width,\nits groups as the log alone gives them, the moves, the list's lines and the runs, and\nwhether list and groups agree, and repeats and runs. A failed read or write is told on\nstandard error.\n";
    if text_pipes::helped(&rt, help) {
        return;
    }
    let mut input = [0u8; 65536];
    let mut line = [0u8; 1001];
    let mut buf = [0u8; 262144];
    let pipes = Pipes {
        input: rt.stdin(),
        output: rt.stdout(),
        errors: rt.stderr(),
    };
    run(pipes, &mut input, &mut line, &mut buf);
}
