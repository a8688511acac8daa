// Runs `find_primer` and `reverse_complement` (document 02, item 6): each letter against each, bytes outside the code in a read, every refusal at its edge and in its place in the
// order, with the slices before and after, and the limits of a read and of a primer. What they give for the stored reads stands in their results.
#![tactic(auto)]

ghost use Rattle.std.specs.Prelude.{◌≤◌};

use call_answers::counted;
use call_primers::{find_primer, reverse_complement};
use run_prints::{every_byte, shown};

// the letters of the code
const CODE: &[u8] = b"ABCDGHKMNRSTVWY";

// `find_primer` on so many sevens
fn find_in(rt: &impl Print, read: &[u8], primer: &[u8], room: usize)
    requires { room ≤ 1000 }
{
    let out = &mut [7; 1000][..room];
    shown(
        rt,
        "find_primer",
        out,
        |out| counted(find_primer(read, primer, out)),
    )
}

// `reverse_complement`
fn turn_in(rt: &impl Print, primer: &[u8], room: usize)
    requires { room ≤ 61 }
{
    let out = &mut [7; 61][..room];
    shown(
        rt,
        "reverse_complement",
        out,
        |out| counted(reverse_complement(primer, out)),
    )
}

// room at its edge; places that overlap; a primer as long as the read, and longer
fn rooms(rt: &impl Print) {
    let calls: [(&[u8], &[u8], usize); 13] = [
        (b"ACGTACGT", b"AC", 3),
        (b"ACGTACGT", b"AC", 2),
        (b"ACGTACGT", b"AC", 1),
        (b"ACGTACGT", b"AC", 0),
        (b"ACGTACGT", b"RY", 4),
        (b"ACGTACGT", b"RY", 3),
        (b"ACGTACGT", b"GT", 2),
        (b"AAAA", b"AA", 3),
        (b"AC", b"AC", 1),
        (b"AC", b"ACG", 1),
        (b"AC", b"ACG", 0),
        (b"", b"A", 0),
        (b"", b"N", 2),
    ];
    for (read, primer, room) in calls {
        find_in(rt, read, primer, room);
    }
}

// each letter of the code in a primer, over each in a read
fn letters(rt: &impl Print) {
    for letter in CODE.chunks(1) {
        find_in(rt, CODE, letter, 15);
    }
}

// bytes of a read that are no letters of the code match nowhere: U, small letters, a space, byte 0, all the others
fn strange(rt: &impl Print) {
    let calls: [(&[u8], &[u8], usize); 10] = [
        (b"AUGT", b"N", 4),
        (b"acgtn", b"N", 5),
        (b"A C", b"NNN", 1),
        (b"A C", b"N", 3),
        (b"ANGT", b"N", 4),
        (b"ANGT", b"A", 4),
        (b"ANGT", b"AB", 4),
        (b"ANGT", b"AN", 4),
        (b"A\0C", b"N", 3),
        (b"A\0C", b"NNN", 1),
    ];
    for (read, primer, room) in calls {
        find_in(rt, read, primer, room);
    }
    let all = every_byte();
    find_in(rt, &all, b"N", 16);
    find_in(rt, &all, b"B", 14)
}

// refusal 9 by its index, before 3
fn foreigners(rt: &impl Print) {
    find_in(rt, b"AAAA", b"U", 0);
    find_in(rt, b"AAAA", b"aA", 1);
    find_in(rt, b"AAAA", b"Aa", 1);
    find_in(rt, b"AAAA", b"ANnU", 0);
    find_in(rt, b"AAAA", b"A A", 2);
    turn_in(rt, b"U", 0);
    turn_in(rt, b"ACn", 2);
    turn_in(rt, b"A.CU", 4)
}

// refusal 8: no letter, 61 of them; before 9 and 3, or 4
fn none(rt: &impl Print) {
    find_in(rt, b"AAAA", b"", 4);
    find_in(rt, b"AAAA", b"", 0);
    find_in(rt, b"", b"", 0)
}

fn many(rt: &impl Print, primer: &[u8], longer: &[u8], foreign: &[u8], both: &[u8]) {
    find_in(rt, b"AAAA", primer, 1);
    find_in(rt, b"AAAA", longer, 1);
    find_in(rt, b"AAAA", foreign, 1);
    find_in(rt, b"AAAA", both, 0);
    turn_in(rt, b"", 1);
    turn_in(rt, b"", 0);
    turn_in(rt, primer, 60);
    turn_in(rt, primer, 59);
    turn_in(rt, longer, 61);
    turn_in(rt, foreign, 59);
    turn_in(rt, both, 0)
}

// 1,000 bytes pass, and all their places; 1,001 are refused before anything else
fn limits(rt: &impl Print, primer: &[u8], both: &[u8]) {
    let within = [b'A'; 1000];
    find_in(rt, &within, b"A", 1000);
    find_in(rt, &within, b"A", 999);
    find_in(rt, &within, primer, 941);
    find_in(rt, &within, primer, 940);
    find_in(rt, &within, b"C", 0);
    let over = [b'A'; 1001];
    find_in(rt, &over, b"A", 3);
    find_in(rt, &over, b"", 2);
    find_in(rt, &over, both, 0)
}

// room at its edge, and each letter turned
fn turns(rt: &impl Print) {
    for room in [4, 3, 2, 0] {
        turn_in(rt, b"ACN", room);
    }
    turn_in(rt, b"A", 1);
    turn_in(rt, b"ACGT", 4);
    turn_in(rt, CODE, 15);
    turn_in(rt, b"RWBASYNKMDCHGVT", 15)
}

// 60 letters and 61, all of the code or with a U
fn long_primers(rt: &impl Print) {
    let primer = [b'A'; 60];
    let longer = [b'A'; 61];
    let mut foreign = [b'A'; 60];
    foreign[59] = b'U';
    let mut both = [b'A'; 61];
    both[59] = b'U';
    many(rt, &primer, &longer, &foreign, &both);
    limits(rt, &primer, &both)
}

pub fn run(rt: &impl Print) {
    rooms(rt);
    letters(rt);
    strange(rt);
    foreigners(rt);
    none(rt);
    long_primers(rt);
    turns(rt)
}
