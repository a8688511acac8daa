// Runs the calls of document 02, item 1, at the edges of each refusal and on refusals in combination, with the slices before and after.
#![tactic(auto)]

ghost use Rattle.std.specs.Prelude.{◌≤◌};

use call_answers::{counted, list_indexed};
use call_indexes::index;
use call_list_indexes::list_index;
use call_lookups::lookup;
use run_prints::{answer_both, shown, slice};

// the answer alone
fn answer_on(rt: &impl Print, read: &[u8], mode: u32, out: &mut [u16], index: &mut [u64]) {
    answer_both(rt, list_indexed(list_index(read, mode, out, index)))
}

fn list_index_on(rt: &impl Print, read: &[u8], mode: u32, out: &mut [u16], index: &mut [u64]) {
    let _ = println!(rt; "list_index");
    slice(rt, out);
    slice(rt, index);
    answer_on(rt, read, mode, out, index);
    slice(rt, out);
    slice(rt, index)
}

// the same on so many sevens
fn list_index_in(rt: &impl Print, read: &[u8], mode: u32, room: usize, beside: usize)
    requires { (room ≤ 13) × (beside ≤ 16) }
{
    let mut out = [7; 13];
    let mut index = [7; 16];
    list_index_on(rt, read, mode, &mut out[..room], &mut index[..beside])
}

fn index_in(rt: &impl Print, list: &[u16], beside: usize)
    requires { beside ≤ 16 }
{
    let out = &mut [7; 16][..beside];
    shown(rt, "index", out, |out| counted(index(list, out)))
}

fn lookup_on(rt: &impl Print, index: &[u64], period: u64) {
    let _ = println!(rt; "lookup");
    let _ = match lookup(index, period) {
        Some(e) => println!(rt; "entry {} {} {} {}", e.place, e.first, e.lines, e.largest),
        None => println!(rt; "none"),
    };
}

fn both(rt: &impl Print) {
    let calls = [
        (0, 12, 16),
        (0, 13, 15),
        (0, 12, 12),
        (0, 12, 11),
        (0, 11, 16),
        (0, 11, 11),
        (2, 11, 3),
    ];
    for (mode, room, beside) in calls {
        list_index_in(rt, b"ACAACACA", mode, room, beside);
    }
}

fn both_short(rt: &impl Print) {
    list_index_in(rt, b"AAAA", 0, 9, 8);
    list_index_in(rt, b"AAAA", 0, 9, 4);
    list_index_in(rt, b"AAAA", 0, 9, 3);
    list_index_in(rt, b"AAAA", 1, 4, 4);
    list_index_in(rt, b"", 0, 0, 0);
    list_index_in(rt, b"", 1, 2, 3)
}

// reads with unread bases (document 02, item 2), and with a small n
fn both_unread(rt: &impl Print) {
    list_index_in(rt, b"ACACNACAC", 0, 6, 4);
    list_index_in(rt, b"ACACNACAC", 0, 6, 3);
    list_index_in(rt, b"NNNN", 0, 0, 0);
    list_index_in(rt, b"nnnn", 0, 9, 4)
}

// R5's list, and parts of it
fn lists(rt: &impl Print) {
    let list = [3, 1, 2, 4, 2, 2, 5, 2, 2, 1, 3, 2];
    for beside in [13, 12, 11, 0] {
        index_in(rt, &list, beside);
    }
    index_in(rt, &[], 0);
    index_in(rt, &[], 3);
    index_in(rt, &list[..1], 4);
    index_in(rt, &list[..2], 4);
    index_in(rt, &list[..10], 16);
    index_in(rt, &list[..11], 0)
}

// equal neighbours, a period that falls, a start that falls, both with a cut line, and numbers that only their order is judged of
fn loose(rt: &impl Print) {
    let falls = [1, 2, 2, 5, 1, 2, 4];
    index_in(rt, &[3, 1, 2, 3, 1, 2], 8);
    index_in(rt, &falls[..6], 8);
    index_in(rt, &[5, 2, 2, 4, 2, 2], 0);
    index_in(rt, &falls, 8);
    index_in(rt, &[1, 0, 0, 9, 0, u16::MAX, 1, u16::MAX, 0], 8)
}

// every period of an index, and two that it has not
fn own(rt: &impl Print, index: &[u64]) {
    for period in [1, 2, 3, 4, 0] {
        lookup_on(rt, index, period);
    }
}

fn lookups(rt: &impl Print) {
    let index = [1, 0, 1, 2, 2, 1, 2, 2, 3, 3, 1, 2];
    own(rt, &index);
    lookup_on(rt, &index[..11], 3);
    lookup_on(rt, &index[..3], 1);
    lookup_on(rt, &[], 0);
    let twice = [2, 5, 6, 7, 2, 8, 9, 9, 3];
    lookup_on(rt, &twice, 2);
    lookup_on(rt, &twice, 3);
    lookup_on(rt, &[u64::MAX, 1, 2, u64::MAX], u64::MAX)
}

// 1,000 bytes pass, 1,001 give refusal 1 before any other
fn limits(rt: &impl Print) {
    let within = [b'A'; 1000];
    // the second call finds in `out` what the first left there
    let mut out = [7; 2997];
    let mut few = [7; 4];
    answer_on(rt, &within, 0, &mut out, &mut [7; 2000]);
    answer_on(rt, &within, 0, &mut out, &mut few);
    answer_on(rt, &within, 1, &mut [7; 2], &mut few);
    answer_on(rt, &[b'A'; 1001], 2, &mut [7], &mut [7])
}

pub fn run(rt: &impl Print) {
    both(rt);
    both_short(rt);
    both_unread(rt);
    lists(rt);
    loose(rt);
    lookups(rt);
    limits(rt)
}
