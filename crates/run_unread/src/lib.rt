// Runs the calls on reads with unread bases (document 02, item 2), and on the same reads with a small n: rooms at their edge, logs that are not the read's
// own, claims and motifs over an N. What the stored reads have at every width stands there.
#![tactic(auto)]

use run_claims::claims_on;
use run_sevens::{list_in, log_in, replay_in, table_in};

// no line needs no room; two lines, and three
fn lists(rt: &impl Print) {
    list_in(rt, b"NNNN", 0, 0);
    list_in(rt, b"NNNN", 1, 2);
    list_in(rt, b"ACACNACAC", 0, 7);
    list_in(rt, b"ACACNACAC", 0, 5);
    list_in(rt, b"ACACNACAC", 1, 6);
    list_in(rt, b"nnnn", 0, 8)
}

fn tables(rt: &impl Print) {
    table_in(rt, b"ACACNACAC", 2, 10);
    table_in(rt, b"NNNN", 1, 3);
    log_in(rt, b"NNNN", 28);
    log_in(rt, b"NNNN", 26)
}

// R12's log, on its read and on one of a small n, and an empty log
fn replays(rt: &impl Print) {
    let log = [1, 2, 1, 1, 3, 2, 1, 4, 3];
    replay_in(rt, b"NNNN", &log, 1, 4);
    replay_in(rt, b"NNNN", &log, 2, 5);
    replay_in(rt, b"NNNN", &log, 3, 4);
    replay_in(rt, b"nnnn", &log, 2, 4);
    replay_in(rt, b"NNNN", &[], 2, 4);
    replay_in(rt, b"nnnn", &[], 2, 4)
}

// a log that is no read's own
fn foreign(rt: &impl Print) {
    let log = [1, 8, 1, 1, 8, 7, 3, 1, 1];
    replay_in(rt, b"ANANANAN", &log, 1, 8);
    replay_in(rt, b"ANANANAN", &log, 3, 8);
    replay_in(rt, b"ANANANAN", &log, 4, 8);
    replay_in(rt, b"NNNNNNNN", &log, 4, 8)
}

fn claims(rt: &impl Print) {
    let long = [(1, 2, 2), (6, 2, 2), (1, 2, 4), (1, 5, 2), (5, 1, 1)];
    claims_on(rt, b"ACACNACAC", &long);
    claims_on(rt, b"NN", &[(1, 1, 2)]);
    claims_on(rt, b"nn", &[(1, 1, 2)]);
    claims_on(rt, b"N", &[(1, 1, 1)])
}

fn claims_of_motifs(rt: &impl Print) {
    claims_on(rt, b"ACNACN", &[(1, 3, 2)]);
    claims_on(rt, b"ACnACn", &[(1, 3, 2)]);
    claims_on(rt, b"ANAN", &[(1, 2, 2)]);
    claims_on(rt, b"NANA", &[(1, 2, 2)]);
    claims_on(rt, b"ACNACA", &[(1, 3, 2)]);
    claims_on(rt, b"NNNN", &[(1, 1, u32::MAX)])
}

pub fn run(rt: &impl Print) {
    lists(rt);
    tables(rt);
    replays(rt);
    foreign(rt);
    claims(rt);
    claims_of_motifs(rt)
}
