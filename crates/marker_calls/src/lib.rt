// The calls of a marker (document 02, item 7), a number, a left and a right primer, a motif and a reference count, any byte, which come in as lent slices and numbers.
// Both answer any input, and go by one definition, `site`: the only repeat that is scored, or the first refusal in the order.
// `score` promises its copies and their signed difference from the reference, or the refusal. `shown` promises the motif, uncopied, as a part of one of the two lent slices, by its
// bytes, its slice and its place: of the house list if that has the marker, otherwise of the read; of a read not scored the empty part at its front. `shown_part` gives slice, place and count.
#![tactic(auto)]

ghost use Rattle.std.specs.Prelude.{◌≡◌, cond, ◌+◌, ◌≤◌};
ghost use Rattle.words.specs.Reads.{most};
ghost use Rattle.words_markers.specs.Sites.{site};
ghost use Rattle.words_markers.specs.Calls.{scored_says, score_of, score_answer, shown as shown_at, of_house, from_of, part_of};
ghost use Rattle.marker_calls.specs.Parts.{shown_part};

use call_copies::copies_at;
use marker_fits::fit;
use marker_houses::house_place;
use marker_seats::seat;
use words::Refusal;
use words_markers::{Scored, Shown};

// A part, as C is handed it, of the house list where `house` is 1, of the read where it is 0: where it starts, counted from 0, and how many bytes it has.
#[repr(C)]
#[derive(Drop)]
pub struct ShownPart {
    pub house: u32,
    pub from: usize,
    pub count: usize,
}

// where the repeat starts that is scored, or why there is none
fn find_site(read: &[u8], left: &[u8], right: &[u8], motif: &[u8]) -> Result<usize, Refusal>
    ensures { result ≡ site read.now left.now right.now motif.now }
{
    let between = seat(read, left, right)?;
    fit(read, motif, between.from, between.to)
}

// the score of so many copies: they, and how many more than the reference they are
fn score_of(copies: usize, reference: u8) -> Scored
    requires { copies ≤ most }
    ensures { scored_says (Ok result) ≡ score_of copies reference }
{
    Scored {
        copies,
        difference: copies as i32 - reference as i32,
    }
}

// the score of a read by a marker
pub fn score(
    read: &[u8],
    left: &[u8],
    right: &[u8],
    motif: &[u8],
    reference: u8,
) -> Result<Scored, Refusal>
    ensures { scored_says result ≡ score_answer read.now left.now right.now motif.now reference }
{
    let i = find_site(read, left, right, motif)?;
    let copies = copies_at(read, i as u32, motif.len() as u32);
    Ok(score_of(copies, reference))
}

// of which slice the motif is shown, and where it starts there
fn place_shown(
    read: &[u8],
    house: &[u8],
    number: u32,
    left: &[u8],
    right: &[u8],
    motif: &[u8],
) -> Option<Shown>
    ensures { result ≡ shown_at read.now house.now number left.now right.now motif.now }
{
    let Ok(i) = find_site(read, left, right, motif) else {
        return None;
    };
    let from = i - 1;
    match house_place(house, number, motif) {
        Some(at) => Some(Shown::House(at)),
        None => Some(Shown::Read(from)),
    }
}

// the motif shown for a marker. Its bytes can stand in both slices, and at more than one place of each, so the contract says besides the bytes which slice's block the part lies in,
// and how many bytes after that slice's start it starts
pub fn shown<'a>(
    read: &'a [u8],
    house: &'a [u8],
    number: u32,
    left: &[u8],
    right: &[u8],
    motif: &[u8],
) -> &'a [u8]
    ensures { let s = shown_at read.now house.now number left.now right.now motif.now in
        (result.now ≡ part_of read.now house.now motif.now s)
        × (result.ref_ptr.0 ≡ (cond (of_house s) house.entry read.entry).ref_ptr.0)
        × (result.ref_ptr.1 ≡ (cond (of_house s) house.entry read.entry).ref_ptr.1 + from_of s) }
{
    match place_shown(read, house, number, left, right, motif) {
        Some(Shown::House(from)) => &house[from..from + motif.len()],
        Some(Shown::Read(from)) => &read[from..from + motif.len()],
        None => &read[..0],
    }
}

// the same part by its slice, its place and its count, for those who are handed no part of a slice
pub fn shown_part(
    read: &[u8],
    house: &[u8],
    number: u32,
    left: &[u8],
    right: &[u8],
    motif: &[u8],
) -> ShownPart
    ensures { result ≡ shown_part motif.now (shown_at read.now house.now number left.now right.now motif.now) }
{
    let count = motif.len();
    match place_shown(read, house, number, left, right, motif) {
        Some(Shown::House(from)) => ShownPart {
            house: 1,
            from,
            count,
        },
        Some(Shown::Read(from)) => ShownPart {
            house: 0,
            from,
            count,
        },
        None => ShownPart {
            house: 0,
            from: 0,
            count: 0,
        },
    }
}
