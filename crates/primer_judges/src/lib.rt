// How a primer is judged before it is looked for: by its length (refusal 8), and then letter by letter (refusal 9). `good_length` and `first_foreign` promise the definitions that
// these refusals are worded by.
#![tactic(auto)]

ghost use Rattle.std.specs.Prelude.{◌≡◌};
ghost use Rattle.words.specs.Logs.{within};
ghost use Rattle.words_primers.specs.Primers.{longest, first_foreign};

use base_sets::set_of;

// the most letters that a primer may have
const LONGEST: usize = 60;

// may a primer have so many letters?
#[tactic(auto, unfolding(words::specs::Logs::within))]
pub fn good_length(letters: usize) -> bool
    ensures { result ≡ within 1 longest letters }
{
    (1..=LONGEST).contains(&letters)
}

// the first letter, from 0, that is none of the code; the length if all are, as in the definition that the refusal is worded by
pub fn first_foreign(primer: &[u8]) -> usize
    ensures { result ≡ first_foreign primer.now }
{
    primer
        .iter()
        .position(|b| set_of(*b) == 0)
        .unwrap_or(primer.len())
}
