// Runs `score` and `shown` (document 02, item 7): every refusal at its edge and in its place in the order, repeats at the edges of the primers, motifs of no repeat, the lines of
// a house list, and the limit of a read. What they give for the stored reads stands in their results.
#![tactic(auto)]

use marker_answers::scored;
use marker_calls::{score, shown, shown_part};
use run_prints::{answer_both, slice};

// a read with a repeat from behind its left primer, GTT, up to its right one, TGG
const READ: &[u8] = b"GTTACACACTGG";

fn score_on(rt: &impl Print, read: &[u8], left: &[u8], right: &[u8], motif: &[u8], reference: u8) {
    let _ = println!(rt; "score");
    answer_both(rt, scored(score(read, left, right, motif, reference)))
}

// the part by its place, and its bytes
fn shown_on(
    rt: &impl Print,
    read: &[u8],
    house: &[u8],
    marker: u32,
    left: &[u8],
    right: &[u8],
    motif: &[u8],
) {
    let _ = println!(rt; "shown");
    let p = shown_part(read, house, marker, left, right, motif);
    let _ = println!(rt; "part {} {} {}", p.house, p.from, p.count);
    slice(rt, shown(read, house, marker, left, right, motif))
}

// motifs of that read, each with its reference
fn motifs_in(rt: &impl Print, motifs: &[(&[u8], u8)]) {
    for &(motif, reference) in motifs {
        score_on(rt, READ, b"GTT", b"TGG", motif, reference);
    }
}

// the reference is the copies, one less, one more, none, the largest byte; the motif of the next start
fn references(rt: &impl Print) {
    motifs_in(
        rt,
        &[
            (b"AC", 3),
            (b"AC", 2),
            (b"AC", 4),
            (b"AC", 0),
            (b"AC", 255),
            (b"CA", 255),
        ],
    )
}

// no repeat has the motif: none, not primitive, one copy, inside a primer, a small letter, an N, longer than half the read, as long, longer
fn motifs(rt: &impl Print) {
    motifs_in(
        rt,
        &[
            (b"", 0),
            (b"ACAC", 0),
            (b"ACACAC", 3),
            (b"A", 0),
            (b"T", 0),
            (b"G", 0),
            (b"ac", 0),
            (b"AN", 0),
            (b"N", 0),
            (b"ACACACT", 0),
            (b"GTTACACACTGG", 0),
            (b"GTTACACACTGGG", 0),
        ],
    )
}

// pairs of primers of that read, left and right
fn primers_in(rt: &impl Print, motif: &[u8], primers: &[(&[u8], &[u8])]) {
    for &(left, right) in primers {
        score_on(rt, READ, left, right, motif, 3);
    }
}

// a base free on either side; one byte inside the left primer, the right one, both
fn reaches(rt: &impl Print) {
    primers_in(
        rt,
        b"AC",
        &[
            (b"GT", b"GG"),
            (b"GTTA", b"TGG"),
            (b"GTT", b"CTGG"),
            (b"GTTA", b"CTGG"),
        ],
    );
    primers_in(
        rt,
        b"CA",
        &[(b"GTTA", b"CTGG"), (b"GTTAC", b"CTGG"), (b"GTTA", b"ACTGG")],
    )
}

// reads between those primers, each with a motif
fn reads_in(rt: &impl Print, reads: &[(&[u8], &[u8])]) {
    for &(read, motif) in reads {
        score_on(rt, read, b"GTT", b"TGG", motif, 3);
    }
}

// leading in the whole read: a chain that starts in the left primer has no start between; a chain has one leading start of its motif
fn leading(rt: &impl Print) {
    for motif in [b"CA", b"AC"] {
        score_on(rt, b"GGACACACTT", b"GA", b"CT", motif, 3);
    }
    for motif in [b"AC", b"CA"] {
        score_on(rt, b"GGACACACACTT", b"GA", b"TT", motif, 3);
    }
    reads_in(rt, &[(b"GTTACACACACTGG", b"AC"), (b"GTTAAAATGG", b"A")])
}

// two repeats with the motif, one of them inside a primer, both; three, and the longer motif that they make; others before the left primer and behind the right one
fn several(rt: &impl Print) {
    let pairs: [(&[u8], &[u8]); 4] = [
        (b"GTT", b"TGG"),
        (b"GTTA", b"TGG"),
        (b"GTT", b"CTGG"),
        (b"GTTA", b"CTGG"),
    ];
    for (left, right) in pairs {
        score_on(rt, b"GTTACACGACACTGG", left, right, b"AC", 3);
    }
    reads_in(
        rt,
        &[
            (b"GTTACACGACACTGG", b"CA"),
            (b"GTTACACGACACGACACTGG", b"AC"),
            (b"GTTACACGACACGACACTGG", b"ACACG"),
        ],
    );
    score_on(rt, b"ACACGACACTACAC", b"G", b"T", b"AC", 3)
}

// an N ends a repeat and stands in none, n and R are letters like any other there; in a primer an N lets in each letter, in a read it sits under N alone
fn unread(rt: &impl Print) {
    reads_in(
        rt,
        &[
            (b"GTTACACACNCTGG", b"AC"),
            (b"GTTACACNACACTGG", b"AC"),
            (b"GTTACNACACTGG", b"AC"),
            (b"GTTANANANTGG", b"AN"),
            (b"GTTAnAnAnTGG", b"An"),
            (b"GTTARARARTGG", b"AR"),
            (b"GTNACACACTGG", b"AC"),
        ],
    );
    score_on(rt, b"GTNACACACTGG", b"GTN", b"TGG", b"AC", 3)
}

// primers with letters of more than one base
fn ambiguous(rt: &impl Print) {
    primers_in(
        rt,
        b"AC",
        &[
            (b"KTT", b"TSS"),
            (b"GNT", b"YRG"),
            (b"N", b"TGG"),
            (b"GTT", b"VC"),
        ],
    )
}

// 60 letters and 61, all of the code or with a U: refusal 8 of the left primer, then of the right one, before 9; so 9, before 10
fn long_primers(rt: &impl Print) {
    let primer = [b'A'; 60];
    let longer = [b'A'; 61];
    let mut foreign = [b'A'; 60];
    foreign[59] = b'U';
    primers_in(
        rt,
        b"AC",
        &[
            (b"", b""),
            (b"", &longer),
            (&longer, b""),
            (b"U", b""),
            (b"U", &longer),
            (&longer, b"U"),
            (b"GTU", b"U"),
            (b"U", b"TGu"),
            (&foreign, b"U"),
            (b"GTT", &foreign),
            (b"AAA", b"TGu"),
            (&primer, b"TGG"),
            (b"GTT", &primer),
        ],
    )
}

// refusal 10 of the left primer, then of the right one, before 11; so 11, before 12
fn seats(rt: &impl Print) {
    primers_in(
        rt,
        b"AC",
        &[
            (b"AAA", b"AAA"),
            (b"AAA", b"AC"),
            (b"AAA", b"TGG"),
            (b"AC", b"AAA"),
            (b"GTT", b"AAA"),
            (b"AC", b"CA"),
            (b"AC", b"TGG"),
            (b"AC", b"GTT"),
            (b"GTT", b"AC"),
            (b"TGG", b"AC"),
        ],
    )
}

// places that overlap are more than one; an empty read has none
fn short_reads(rt: &impl Print) {
    score_on(rt, b"GAAAT", b"AA", b"T", b"A", 0);
    score_on(rt, b"", b"A", b"T", b"A", 0);
    score_on(rt, b"", b"", b"T", b"", 0)
}

// refusal 12: the same primer, the right one first, one inside the other, over one letter; side by side there is no repeat between
fn orders(rt: &impl Print) {
    primers_in(
        rt,
        b"AC",
        &[
            (b"GTT", b"GTT"),
            (b"TGG", b"GTT"),
            (b"GTTACACACT", b"TT"),
            (b"TT", b"GTTA"),
            (b"GT", b"GTT"),
            (b"GTTACACACTGG", b"TGG"),
            (b"GTTACA", b"ACACT"),
            (b"GTTAC", b"ACACT"),
            (b"GTTACACAC", b"TGG"),
        ],
    )
}

// 1,000 bytes pass: as one letter
fn one_letter(rt: &impl Print) {
    let read = [b'A'; 1000];
    score_on(rt, &read, b"A", b"C", b"A", 0);
    score_on(rt, &read, b"A", b"A", b"A", 0)
}

// as the most copies there can be
fn most_copies(rt: &impl Print) {
    let mut read = [b'A'; 1000];
    read[0] = b'G';
    read[999] = b'T';
    score_on(rt, &read, b"G", b"T", b"A", 255);
    shown_on(rt, &read, b"C\nA", 1, b"G", b"T", b"A");
    shown_on(rt, &read, b"C\nA", 0, b"G", b"T", b"A")
}

// as the longest motif there can be, and without its last byte
fn longest_motif(rt: &impl Print) {
    let mut read = [b'A'; 1000];
    read[0] = b'G';
    read[499] = b'C';
    read[998] = b'C';
    read[999] = b'T';
    let mut motif = [b'A'; 499];
    motif[498] = b'C';
    score_on(rt, &read, b"G", b"T", &motif, 0);
    score_on(rt, &read, b"G", b"T", &motif[..498], 0)
}

// 1,001 are refused before anything else
fn over(rt: &impl Print) {
    let read = [b'A'; 1001];
    score_on(rt, &read, b"C", b"A", b"A", 0);
    score_on(rt, &read, b"U", b"", b"", 255);
    shown_on(rt, &read, b"A", 0, b"C", b"A", b"A")
}

// house lists, each with the number of a marker, whose motif is AC
fn houses_in(rt: &impl Print, houses: &[(&[u8], u32)]) {
    for &(house, marker) in houses {
        shown_on(rt, READ, house, marker, b"GTT", b"TGG", b"AC");
    }
}

// the house list has the marker: in its first line, in its last one with a newline behind it and without, in the middle, behind empty ones, in two lines
fn lines(rt: &impl Print) {
    houses_in(
        rt,
        &[
            (b"AC", 0),
            (b"AC\n", 0),
            (b"AC\nCA\nG", 0),
            (b"CA\nAC", 1),
            (b"CA\nAC\n", 1),
            (b"CAC\nAC\nG", 1),
            (b"\n\nAC", 2),
            (b"\nAC\n\n", 1),
            (b"AC\nAC", 0),
            (b"AC\nAC", 1),
        ],
    )
}

// it has not: the line of another number, an empty one, one past the last, no text
fn numbers(rt: &impl Print) {
    houses_in(
        rt,
        &[
            (b"CA\nAC", 0),
            (b"AC\nCA", 1),
            (b"CA\nAC", 2),
            (b"CA\nAC\n", 2),
            (b"CA\nAC\n", 3),
            (b"AC", 1),
            (b"AC", u32::MAX),
            (b"\n\nAC", 0),
            (b"\n\nAC", 1),
            (b"", 0),
            (b"", 1),
            (b"", u32::MAX),
        ],
    )
}

// a line that is longer, shorter, cut in two, another, or has the motif inside; a carriage return is part of its line
fn others(rt: &impl Print) {
    houses_in(
        rt,
        &[
            (b"ACA\nAC", 0),
            (b"ACAC", 0),
            (b"A\nC", 0),
            (b"A\nC", 1),
            (b"CA", 0),
            (b"ac", 0),
            (b"GAC", 0),
            (b"GACT\nAC", 0),
            (b"AC ", 0),
            (b"AC\r\nCA", 0),
            (b"CA\n\rAC", 1),
        ],
    )
}

// the motif of a read between those primers
fn motif_shown(rt: &impl Print, read: &[u8], house: &[u8], marker: u32, motif: &[u8]) {
    shown_on(rt, read, house, marker, b"GTT", b"TGG", motif)
}

// a motif with a newline is no line; the motif of another start
fn shown_motifs(rt: &impl Print) {
    motif_shown(rt, b"GTTA\nA\nA\nTGG", b"A\nA\n", 0, b"A\n");
    motif_shown(rt, b"GTT\n\n\nTGG", b"\n\n", 0, b"\n");
    motif_shown(rt, b"GTT\n\n\nTGG", b"\n\n", 1, b"\n");
    motif_shown(rt, READ, b"AC\nCA", 1, b"CA");
    motif_shown(rt, READ, b"AC\nCA", 0, b"CA")
}

// of a read not scored nothing is shown, though the house list has the line
fn unscored(rt: &impl Print) {
    let pairs: [(&[u8], &[u8]); 5] = [
        (b"", b"TGG"),
        (b"GTT", b"TGu"),
        (b"AAA", b"TGG"),
        (b"GTT", b"AC"),
        (b"TGG", b"GTT"),
    ];
    for (left, right) in pairs {
        shown_on(rt, READ, b"AC", 0, left, right, b"AC");
    }
    motif_shown(rt, READ, b"ACAC", 0, b"ACAC");
    motif_shown(rt, READ, b"", 0, b"");
    motif_shown(rt, b"GTTACACGACACTGG", b"AC", 0, b"AC");
    shown_on(rt, b"", b"A", 0, b"A", b"A", b"A")
}

// a house list longer than any read: so many empty lines, and the motif
fn long_house(rt: &impl Print) {
    let mut house = [b'\n'; 2000];
    house[1998] = b'A';
    house[1999] = b'C';
    houses_in(rt, &[(&house, 1998), (&house, 1997), (&house, 1999)])
}

pub fn run(rt: &impl Print) {
    references(rt);
    motifs(rt);
    reaches(rt);
    leading(rt);
    several(rt);
    unread(rt);
    ambiguous(rt);
    long_primers(rt);
    seats(rt);
    short_reads(rt);
    orders(rt);
    one_letter(rt);
    most_copies(rt);
    longest_motif(rt);
    over(rt);
    lines(rt);
    numbers(rt);
    others(rt);
    shown_motifs(rt);
    unscored(rt);
    long_house(rt)
}
