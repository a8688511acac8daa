// Runs every call on the reads with known results that document 01 has run, at the edges of each refusal and on refusals in combination, and
// prints each answer in the documents' numbers with the slices before and after. The log reader is walked by `for`, and by `call_once` beside it. What
// a request of document 02 adds is run by a library of its own.
#![tactic(auto)]

use call_answers::counted;
use call_reader::call_once;
use lister::{LogReader, group_table, list, log, replay};
use run_claims::claims_on;
use run_prints::{answer, every_byte};
use run_sevens::{list_in, log_in, replay_in, table_in};
use words::Entry;

// R6's read and its log
const READ: &[u8] = b"ACAACACA";

const LOG: [u16; 33] = [
    1, 1, 2, 1, 1, 3, 1, 1, 5, 1, 1, 7, 1, 2, 1, 1, 2, 4, 1, 2, 6, 2, 3, 2, 2, 8, 7, 3, 5, 4, 3, 7,
    6,
];

fn lists(rt: &impl Print) {
    let calls: [(&[u8], u32, usize); 8] = [
        (READ, 0, 12),
        (READ, 0, 11),
        (READ, 1, 14),
        (READ, 2, 11),
        (b"AAAA", 0, 9),
        (b"AAAA", 1, 9),
        (b"ACACACA", 1, 12),
        (b"", 0, 2),
    ];
    for (read, mode, room) in calls {
        list_in(rt, read, mode, room);
    }
}

fn tables(rt: &impl Print) {
    for (width, room) in [(8, 9), (0, 9), (9, 9), (u32::MAX, 2), (3, 8), (3, 7)] {
        table_in(rt, READ, width, room);
    }
    table_in(rt, b"", 1, 2)
}

fn logs(rt: &impl Print) {
    log_in(rt, READ, 85);
    log_in(rt, READ, 83);
    log_in(rt, b"AAAA", 27);
    log_in(rt, b"ACGT", 28);
    log_in(rt, b"A", 2);
    log_in(rt, b"", 1)
}

fn own_replays(rt: &impl Print) {
    for (width, room) in [(1, 9), (3, 8), (4, 8), (5, 8), (0, 8)] {
        replay_in(rt, READ, &LOG, width, room);
    }
}

// a log with two numbers left over, and one in which a position moves twice at one width
fn damaged_replays(rt: &impl Print) {
    let mut twice = LOG;
    twice[5] = 2;
    replay_in(rt, READ, &LOG[..32], 4, 8);
    replay_in(rt, READ, &twice, 1, 8);
    replay_in(rt, READ, &twice, 1, 7);
    replay_in(rt, READ, &twice, 5, 7)
}

// a log that is no read's own
fn foreign(rt: &impl Print) {
    let log = [1, 8, 1, 1, 8, 7, 3, 1, 1];
    replay_in(rt, b"AAAAAAAA", &log, 3, 8);
    replay_in(rt, b"AAAAAAAA", &log, 4, 8)
}

fn claims(rt: &impl Print) {
    let claims = [
        (1, 2, 4),
        (1, 4, 2),
        (1, 2, 3),
        (2, 2, 3),
        (2, 2, 4),
        (u32::MAX, u32::MAX, u32::MAX),
    ];
    claims_on(rt, b"ACACACAC", &claims);
    claims_on(rt, b"AA", &[(1, 1, u32::MAX)]);
    claims_on(rt, b"", &[(0, 0, 0)])
}

fn entry_of(rt: &impl Print, entry: Option<Entry>) {
    let _ = match entry {
        Some(e) => println!(rt; "move {} {} {}", e.width, e.name, e.position),
        None => println!(rt; "ended"),
    };
}

// a log of ten whole entries and two numbers, by a reader and by `call_once`, and twice more that it has ended: an entry is printed if both give it
fn walks(rt: &impl Print) {
    let log = &LOG[..32];
    let mut reader = LogReader::new(log);
    let mut at = 0;
    for entry in &mut reader {
        let t = call_once(log, at);
        entry_of(rt, t.entry.filter(|e| *e == entry));
        at = t.at;
    }
    for _ in 0..2 {
        let t = call_once(log, at);
        entry_of(rt, t.entry.or(reader.next()));
        at = t.at;
    }
}

// the answers alone
fn long_lists(rt: &impl Print, within: &[u8], over: &[u8]) {
    answer(rt, counted(list(within, 0, &mut [7; 30000])));
    answer(rt, counted(list(within, 1, &mut [7; 3])));
    answer(rt, counted(list(over, 2, &mut [7])))
}

fn long_logs(rt: &impl Print, within: &[u8], over: &[u8]) {
    answer(rt, counted(log(within, &mut [7; 29970])));
    answer(rt, counted(log(within, &mut [7; 29969])));
    answer(rt, counted(log(over, &mut [7])))
}

fn long_tables(rt: &impl Print, within: &[u8], over: &[u8]) {
    answer(rt, counted(group_table(within, 1000, &mut [7; 1000])));
    answer(rt, counted(group_table(over, 0, &mut [7])));
    answer(rt, counted(replay(over, &[9], 0, &mut [7])))
}

// 1,000 bytes pass, 1,001 give refusal 1 before any other
fn limits(rt: &impl Print) {
    let within = [b'A'; 1000];
    let over = [b'A'; 1001];
    long_lists(rt, &within, &over);
    long_logs(rt, &within, &over);
    long_tables(rt, &within, &over)
}

fn bytes(rt: &impl Print) {
    let read = every_byte();
    list_in(rt, &read, 0, 3);
    table_in(rt, &read, 1, 257);
    log_in(rt, &read, 6885)
}

fn main(rt: HostRuntime) {
    lists(&rt);
    tables(&rt);
    logs(&rt);
    own_replays(&rt);
    damaged_replays(&rt);
    foreign(&rt);
    claims(&rt);
    walks(&rt);
    limits(&rt);
    bytes(&rt);
    run_indexes::run(&rt);
    run_unread::run(&rt);
    run_runs::run(&rt);
    run_claims::run(&rt);
    run_primers::run(&rt);
    run_markers::run(&rt)
}
