// The letters of primers as sets of bases, held as four bits: A 1, C 2, G 4, T 8, and 0 for a byte that is no letter of the code. A byte becomes its set and a set its letter
// by a table; one set lies inside another by masking; the complement of a set is its bits moved. Each promises an equation over the definition.
#![tactic(auto)]

ghost use Rattle.std.specs.Prelude.{◌≡◌, ◌<◌};
ghost use Rattle.words_primers.specs.Bases.{set_of, letter_for, matches as matches_in, complement_of};
ghost use Rattle.words_primers.specs.Primers.{turned};
ghost use Rattle.base_sets.specs.Sets.{letter_sets};

// the sets of A to Z; U and the nine others that are no letter of the code have none
const SETS: [u8; 26] = [
    1, 14, 2, 13, 0, 0, 4, 11, 0, 0, 12, 0, 3, 15, 0, 0, 0, 5, 6, 8, 0, 7, 9, 0, 10, 0,
];

// the letters of the sets; the empty set has none
const LETTERS: [u8; 16] = [
    0, b'A', b'C', b'M', b'G', b'R', b'S', b'V', b'T', b'W', b'Y', b'H', b'K', b'D', b'B', b'N',
];

// the sets of A to Z as a table, for one who looks up many bytes: a constant is laid out anew at each use
pub fn letter_sets() -> [u8; 26]
    ensures { result ≡ letter_sets }
{
    SETS
}

// the set of a byte, by that table
pub fn set_in(sets: &[u8; 26], byte: u8) -> u8
    requires { sets.now ≡ letter_sets }
    ensures { (result ≡ set_of byte) × (result < 16) }
{
    if byte.is_ascii_uppercase() {
        sets[byte as usize - b'A' as usize]
    } else {
        0
    }
}

// the set of a byte
pub fn set_of(byte: u8) -> u8
    ensures { (result ≡ set_of byte) × (result < 16) }
{
    let sets = letter_sets();
    set_in(&sets, byte)
}

// the letter of a set
fn letter_for(set: u8) -> u8
    requires { set < 16 }
    ensures { result ≡ letter_for set }
{
    LETTERS[set as usize]
}

// does a read letter of one set match a primer letter of the other? The empty set, which would pass the mask, is no letter's
#[tactic(auto, using(crate::proofs::Tables::matched))]
pub fn matches(read: u8, primer: u8) -> bool
    requires { (read < 16) × (primer < 16) }
    ensures { result ≡ matches_in read primer }
{
    read != 0 && read & primer == read
}

// the complement of each base of a set
fn complement(set: u8) -> u8
    requires { set < 16 }
    ensures { (result ≡ complement_of set) × (result < 16) }
{
    (set & 1) << 3 | (set & 2) << 1 | (set & 4) >> 1 | (set & 8) >> 3
}

// the letter of the complement
#[tactic(auto, unfolding(words_primers::specs::Primers::turned))]
pub fn turn(byte: u8) -> u8
    ensures { result ≡ turned byte }
{
    letter_for(complement(set_of(byte)))
}
