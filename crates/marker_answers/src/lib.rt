// The answer of `score` in document 02's numbers, as `call_answers` has those of the library's calls: its number, its value and, as the second value, the signed difference.
#![tactic(auto)]

ghost use Rattle.std.specs.Prelude.{◌≡◌};
ghost use Rattle.words_markers.specs.Calls.{scored_says};
ghost use Rattle.marker_answers.specs.Scores.{in_twos, plain_score};

use call_answers::{Answer, refused};
use words::Refusal;
use words_markers::Scored;

// a signed number in 64 bits, in two's complement
fn in_twos(signed: i32) -> u64
    ensures { result ≡ in_twos signed }
{
    i64::from(signed).cast_unsigned()
}

// what `score` answers
#[tactic(auto, using(crate::proofs::Refused::refused_plain))]
pub fn scored(a: Result<Scored, Refusal>) -> Answer
    ensures { result ≡ plain_score (scored_says a) }
{
    match a {
        Ok(score) => Answer {
            number: 0,
            value: score.copies as u64,
            more: in_twos(score.difference),
        },
        Err(why) => refused(why),
    }
}
