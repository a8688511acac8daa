// Steps each read of standard input, one a line, through all its widths, and prints at each width the group table, the names of the small
// groups and the number of moves. A read over the limit is passed over.
#![tactic(auto)]

ghost use Rattle.std.specs.Prelude.{◌≡◌, ◌≤◌, length};
ghost use Rattle.partition.specs.Stand.{Good};

use partition::{Partition, Stepped};
use step2_bits::Places;

const STDIN_FILENO: i32 = 0;

// the names of positions
fn names(rt: &impl Print, name: &[u16]) {
    for s in name {
        let _ = print!(rt; " {s}");
    }
}

// the places of a set, from the least on
fn members(rt: &impl Print, mut set: Places) {
    while let Some(s) = set.take_least() {
        let _ = print!(rt; " {s}");
    }
}

// what a partition holds at its width, and the next
fn width(rt: &impl Print, p: Partition) -> Stepped
    requires { Good p }
    ensures { Good result.partition × (result.partition.n ≡ p.n) }
{
    let w = p.width;
    let _ = print!(rt; "{w} table");
    names(rt, &p.name[..p.n as usize]);
    let _ = print!(rt; "\n{w} small");
    members(rt, p.small);
    let s = p.step();
    let _ = println!(rt; "\n{w} moves {}", s.moves);
    s
}

// all widths of a read
fn widths(rt: &impl Print, read: &[u8])
    requires { length read.now ≤ 1000 }
{
    let mut p = Partition::fresh(read);
    let n = p.n;
    let _ = println!(rt; "read {n}");
    for _ in 0..n {
        p = width(rt, p).partition;
    }
}

fn within(rt: &impl Print, read: &[u8]) {
    if Partition::MOST < read.len() {
        return;
    }
    widths(rt, read)
}

// a newline ends a read
fn lines(rt: &impl Print, input: &[u8]) {
    let mut rest = input;
    while let Some(end) = rest.iter().position(|b| *b == b'\n') {
        within(rt, &rest[..end]);
        rest = &rest[end + 1..];
    }
}

fn main(rt: HostRuntime) {
    let mut input = [0u8; 65536];
    let n = io::read_full(STDIN_FILENO, &mut input); // std has no read that fills an array as far as the input goes
    lines(&rt, &input[..n])
}
