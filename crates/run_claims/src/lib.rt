// Runs `claim` and `motif` (document 02, item 4): each verdict at its edge and in its place in the order, numbers whose products leave 32 bits, motifs with an N, and the limit
// of a read. What they give all over the stored reads stands in their results.
#![tactic(auto)]

use call_answers::claimed;
use call_claims::{claim, motif};
use run_prints::answer_both;

// the answer in the documents' numbers, and the part that is handed back
fn claim_on(rt: &impl Print, read: &[u8], start: u32, period: u32, copies: u32) {
    let _ = println!(rt; "claim");
    answer_both(rt, claimed(claim(read, start, period, copies)));
    let _ = rt.write_all(motif(read, start, period, copies));
    let _ = println!(rt; "");
}

// claims on a read: the start, the period and the copies of each
pub fn claims_on(rt: &impl Print, read: &[u8], claims: &[(u32, u32, u32)]) {
    for &(start, period, copies) in claims {
        claim_on(rt, read, start, period, copies);
    }
}

// all four verdicts; one copy; a 0 among the three; the last byte at the read's end and past it
fn verdicts(rt: &impl Print) {
    let claims = [
        (1, 2, 2),
        (1, 4, 1),
        (1, 2, 1),
        (1, 2, 3),
        (3, 1, 2),
        (4, 1, 1),
        (4, 1, 2),
        (5, 1, 1),
        (0, 2, 2),
        (1, 0, 2),
        (1, 2, 0),
        (1, 4, 2),
    ];
    claims_on(rt, b"ACAC", &claims)
}

// a root at its own start, and a count that is another
fn eight(rt: &impl Print) {
    let claims = [
        (1, 4, 2),
        (1, 8, 1),
        (2, 4, 1),
        (2, 6, 1),
        (3, 2, 3),
        (3, 2, 2),
        (3, 2, 1),
        (5, 4, 2),
    ];
    claims_on(rt, b"ACACACAC", &claims)
}

// outside before shorter; the least of several roots
fn roots(rt: &impl Print) {
    claims_on(rt, b"ACACAC", &[(1, 4, 2), (1, 4, 1)]);
    claims_on(rt, b"AAAAAAAA", &[(1, 8, 1), (3, 6, 1), (1, 4, 3)]);
    claims_on(rt, b"AACAAC", &[(1, 6, 1), (1, 2, 1)])
}

// periods over an N
fn unread(rt: &impl Print) {
    let claims = [
        (1, 3, 1),
        (1, 3, 2),
        (2, 3, 1),
        (3, 1, 1),
        (1, 6, 1),
        (1, 2, 1),
        (4, 2, 1),
        (1, 3, 3),
    ];
    claims_on(rt, b"ACNACA", &claims)
}

fn nothing_but_unread(rt: &impl Print) {
    claims_on(rt, b"NNNN", &[(1, 2, 1), (1, 4, 1), (1, 1, 4)]);
    claims_on(rt, b"nnnn", &[(1, 4, 1), (1, 1, 4)])
}

// products and sums that leave 32 bits, and would come back inside
fn large(rt: &impl Print) {
    let claims = [
        (u32::MAX, u32::MAX, u32::MAX),
        (1, 65536, 65536),
        (1, 2147483648, 2),
        (1, 1431655766, 3),
        (u32::MAX, 1, 2),
        (1, u32::MAX, 1),
        (1, 1, u32::MAX),
        (2, u32::MAX, u32::MAX),
    ];
    claims_on(rt, b"ACAC", &claims)
}

fn none(rt: &impl Print) {
    claims_on(rt, b"", &[(1, 1, 1), (0, 1, 1), (1, 0, 0)])
}

fn thousand(rt: &impl Print) {
    let claims = [
        (1, 1, 1000),
        (1, 1, 999),
        (1, 1000, 1),
        (1, 500, 2),
        (501, 500, 1),
        (501, 500, 2),
        (1000, 1, 1),
        (1000, 1, 2),
    ];
    claims_on(rt, &[b'A'; 1000], &claims)
}

// A .. A C of 480 bytes, twice
fn halves(rt: &impl Print) {
    let mut twice = [b'A'; 960];
    twice[479] = b'C';
    twice[959] = b'C';
    let claims = [
        (1, 480, 2),
        (1, 480, 1),
        (1, 960, 1),
        (2, 480, 1),
        (481, 480, 1),
        (481, 480, 2),
    ];
    claims_on(rt, &twice, &claims)
}

// refusal 1 comes first, whatever the numbers are
fn over(rt: &impl Print) {
    let claims = [
        (1, 1, 1001),
        (0, 1, 2),
        (1, 0, 2),
        (1, 2, 0),
        (u32::MAX, u32::MAX, u32::MAX),
    ];
    claims_on(rt, &[b'A'; 1001], &claims)
}

pub fn run(rt: &impl Print) {
    verdicts(rt);
    eight(rt);
    roots(rt);
    unread(rt);
    nothing_but_unread(rt);
    large(rt);
    none(rt);
    thousand(rt);
    halves(rt);
    over(rt)
}
