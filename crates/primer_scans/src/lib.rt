// A primer looked for in a read, in one pass over the read whatever the primer is. The letters of the primer are bits of a word, bit k for letter k: `letting` gives, for each
// set, the letters that let it in, and `scan` keeps a bit for each front of the primer that ends at the letter read last. `scan` promises the places, in order, as far as the
// slice has room.
#![tactic(auto)]

ghost use Rattle.std.specs.Prelude.{◌≡◌, ◌≤◌, ◌<◌, length};
ghost use Rattle.words_primers.specs.Primers.{longest, places};
ghost use Rattle.row_cells.specs.Listing.{Listing};
ghost use Rattle.primer_scans.specs.Fronts.{Words, Noted, AllLet};

use base_sets::{letter_sets, matches, set_in};
use row_cells::add;

// letter k of a primer, which has this set, lets in each set that lies inside it
fn note(all: &mut [u64; 16], primer: u8, k: usize)
    requires { Words all.old × (primer < 16) × (k < longest) }
    ensures { Noted primer k 16 all.old all.new }
{
    for set in 0..16u8 {
        if matches(set, primer) {
            all[set as usize] |= 1u64 << k;
        }
    }
}

// for each set the letters of the primer that let it in
fn letting(primer: &[u8]) -> [u64; 16]
    requires { length primer.now ≤ longest }
    ensures { AllLet primer.now (length primer.now) result }
{
    let mut all = [0u64; 16];
    let sets = letter_sets();
    for (k, b) in primer.iter().enumerate() {
        note(&mut all, set_in(&sets, *b), k);
    }
    all
}

// the places of the primer, rows of one number, to the front of `out`; returns how many there are. With each letter read a front of the primer, the empty one too, is a letter longer
// if its next letter lets that one in, and is gone if not
pub fn scan(out: &mut [u16], read: &[u8], primer: &[u8]) -> usize
    requires { (length read.now ≤ 1000) × (1 ≤ length primer.now) × (length primer.now ≤ longest) }
    ensures { Listing 1 out.old (places read.now primer.now) result out.new }
{
    let all = letting(primer);
    let sets = letter_sets();
    let last = primer.len() - 1;
    let mut fronts: u64 = 0;
    let mut count: usize = 0;
    for (j, b) in read.iter().enumerate() {
        fronts = (2 * fronts + 1) & all[set_in(&sets, *b) as usize];
        let whole = (fronts >> last) % 2 == 1;
        if whole {
            let i = j + 1 - last;
            let place = [i as u16];
            add(out, count, &place);
            count += 1;
        }
    }
    count
}
