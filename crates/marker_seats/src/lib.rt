// Where the two primers of a marker sit in a read, and what lies between them. `seat` judges by the refusals in their order, the library's own and then the marker's, each for
// the left primer first, and promises the positions between or the first refusal. It goes over the read once for each primer.
#![tactic(auto)]

ghost use Rattle.std.specs.Prelude.{◌≡◌, ◌≤◌, length};
ghost use Rattle.words.specs.Reads.{most};
ghost use Rattle.words_primers.specs.Primers.{longest};
ghost use Rattle.words_markers.specs.Sites.{seated, seats};

use primer_judges::{first_foreign, good_length};
use primer_scans::scan;
use read_edges::check_length;
use slots::wide;
use words::Refusal;
use words_markers::Seats;

// the positions between two primers that were judged, after 10, 11 and 12. Room for one place tells the only one, and the count tells the rest
fn seat_both(read: &[u8], left: &[u8], right: &[u8]) -> Result<Seats, Refusal>
    requires { (length read.now ≤ most) × (1 ≤ length left.now) × (length left.now ≤ longest) × (1 ≤ length right.now) × (length right.now ≤ longest) }
    ensures { result ≡ seated read.now left.now right.now }
{
    let mut first = [0u16; 1];
    let mut second = [0u16; 1];
    let lefts = scan(&mut first[..], read, left);
    let rights = scan(&mut second[..], read, right);
    if lefts == 0 {
        return Err(Refusal::Missing(1));
    }
    if rights == 0 {
        return Err(Refusal::Missing(2));
    }
    if 1 < lefts {
        return Err(Refusal::MoreThanOnce(1));
    }
    if 1 < rights {
        return Err(Refusal::MoreThanOnce(2));
    }
    let from = wide(first[0]) + left.len();
    let to = wide(second[0]);
    if to < from {
        return Err(Refusal::OutOfOrder);
    }
    Ok(Seats { from, to })
}

// the positions between the primers, or why there are none
pub fn seat(read: &[u8], left: &[u8], right: &[u8]) -> Result<Seats, Refusal>
    ensures { result ≡ seats read.now left.now right.now }
{
    check_length(read)?;
    if !good_length(left.len()) {
        return Err(Refusal::BadLength(left.len()));
    }
    if !good_length(right.len()) {
        return Err(Refusal::BadLength(right.len()));
    }
    let foreign = first_foreign(left);
    if foreign < left.len() {
        return Err(Refusal::Foreign(foreign));
    }
    let strange = first_foreign(right);
    if strange < right.len() {
        return Err(Refusal::Foreign(strange));
    }
    seat_both(read, left, right)
}
