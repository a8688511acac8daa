// What a base compares as: all that the library's code knows of N. `letter` gives the number by which the definition of `words` compares a byte at its
// position; `last_alike` finds, from the left, the last position before that compares as a base does; `same_base` compares the bases of two positions.
// Each promises an equation over the definition.
#![tactic(auto)]

ghost use Rattle.std.specs.Prelude.{◌≡◌, not, ◌&&◌, length, eqb};
ghost use Rattle.words.specs.Reads.{unread, letter_of};
ghost use Rattle.read_letters.specs.Seen.{latest, seen_with, place_of};

// the byte that the sequencer writes where it could not tell: a capital N
const UNREAD: u8 = 78;

// what a byte compares as at position i: odd if it was read, even and of that position alone if not
fn letter(byte: u8, i: u16) -> usize
    ensures { result ≡ letter_of byte i }
{
    if byte == UNREAD {
        return 2 * (i as usize);
    }
    2 * (byte as usize) + 1
}

// the last position before i that compares as i, which has this byte, if there is one. From now on it is i. An unread base compares as no other: it
// neither finds one nor is found
pub fn last_alike(seen: &mut [u16; 256], byte: u8, i: u16) -> Option<u16>
    requires { length seen.old ≡ 256 }
    ensures { (result ≡ place_of (latest seen.old (letter_of byte i))) × (seen.new ≡ seen_with seen.old (letter_of byte i) i) }
{
    if letter(byte, i) % 2 == 0 {
        return None;
    }
    let b = byte as usize; // half of an odd letter
    let l = seen[b];
    seen[b] = i;
    if l == 0 { None } else { Some(l) }
}

// are the bases of two positions, which are not one, the same? An unread one is the same as no other
pub fn same_base(a: u8, b: u8) -> bool
    ensures { result ≡ not (eqb a unread) && eqb a b }
{
    a != UNREAD && a == b
}
