// The answers of the library's calls in the documents' numbers: the one place in code where a case becomes a number and its values (`marker_answers` has the score's).
// What each case says stands in the definitions of words, specs/Answers.antt, and of words_index and words_claims, specs/Calls.antt; `plain` puts it side by side.
#![tactic(auto)]

ghost use Rattle.std.specs.Prelude.{◌≡◌};
ghost use Rattle.words.specs.Answers.{counted_says, refused_says};
ghost use Rattle.words.specs.Answers.{success as says_success, both as says_both, refusal as says_refusal};
ghost use Rattle.words_index.specs.Calls.{list_indexed_says};
ghost use Rattle.words_claims.specs.Calls.{claimed_says};
ghost use Rattle.call_answers.specs.Plain.{plain, plain_move, plain_looked};

use words::{Entry, Refusal, Taken};
use words_claims::Verdict;
use words_index::{ListIndexed, Looked};

// An answer, as C is handed it: its number, 0 for success and else the refusal's, and the values returned with it, 0 for each that it has not.
#[repr(C)]
#[derive(Clone, Copy, Debug, PartialEq, Eq)]
pub struct Answer {
    pub number: u32,
    pub value: u64,
    // the second value; a signed one stands here in two's complement
    pub more: u64,
}

// The next entry of a log, if one was found, and the place after it, as C is handed them.
#[repr(C)]
#[derive(Clone, Copy, Debug, PartialEq, Eq)]
pub struct Move {
    pub at: usize,
    pub found: u16,
    pub width: u16,
    pub name: u16,
    pub position: u16,
}

// What a lookup gives, as C is handed it: 1 and the entry's place and its three numbers, or all 0.
#[repr(C)]
#[derive(Clone, Copy, Debug, Default, PartialEq, Eq)]
pub struct Found {
    pub found: u64,
    pub place: u64,
    pub first: u64,
    pub lines: u64,
    pub largest: u64,
}

// a success that returns one value
#[tactic(auto, unfolding(words::specs::Answers::success, crate::specs::Plain::plain))]
fn success(value: usize) -> Answer
    ensures { result ≡ plain (says_success value) }
{
    Answer {
        number: 0,
        value: value as u64,
        more: 0,
    }
}

// a success that returns two
#[tactic(auto, unfolding(words::specs::Answers::both, crate::specs::Plain::plain))]
fn both(value: usize, more: usize) -> Answer
    ensures { result ≡ plain (says_both value more) }
{
    Answer {
        number: 0,
        value: value as u64,
        more: more as u64,
    }
}

// a refusal that returns one value
#[tactic(auto, unfolding(words::specs::Answers::refusal, crate::specs::Plain::plain))]
pub fn refusal(number: u32, value: usize) -> Answer
    ensures { result ≡ plain (says_refusal number value) }
{
    Answer {
        number,
        value: value as u64,
        more: 0,
    }
}

// why a call says no
#[tactic(auto, unfolding(words::specs::Answers::refused_says))]
pub fn refused(why: Refusal) -> Answer
    ensures { result ≡ plain (refused_says why) }
{
    match why {
        Refusal::TooLong(long) => refusal(1, long),
        Refusal::OutOfRange(number) => refusal(2, number as usize),
        Refusal::ListFull(count) => refusal(3, count),
        Refusal::NoRoom(needed) => refusal(4, needed),
        Refusal::BadEntry(index) => refusal(5, index),
        Refusal::OutOfPlace(line) => refusal(6, line),
        Refusal::IndexFull(count) => refusal(7, count),
        Refusal::BadLength(letters) => refusal(8, letters),
        Refusal::Foreign(index) => refusal(9, index),
        Refusal::Missing(primer) => refusal(10, primer as usize),
        Refusal::MoreThanOnce(primer) => refusal(11, primer as usize),
        Refusal::OutOfOrder => refusal(12, 0),
        Refusal::NoRepeat => refusal(13, 0),
        Refusal::Several => refusal(14, 0),
    }
}

// what a call answers that counts
#[tactic(auto, unfolding(words::specs::Answers::says))]
pub fn counted(a: Result<usize, Refusal>) -> Answer
    ensures { result ≡ plain (counted_says a) }
{
    match a {
        Ok(count) => success(count),
        Err(why) => refused(why),
    }
}

// what `list_index` answers
#[tactic(auto, unfolding(words::specs::Answers::says, words_index::specs::Calls::counts_say))]
pub fn list_indexed(a: Result<ListIndexed, Refusal>) -> Answer
    ensures { result ≡ plain (list_indexed_says a) }
{
    match a {
        Ok(made) => both(made.lines, made.entries),
        Err(why) => refused(why),
    }
}

// what `claim` answers
#[tactic(auto, unfolding(words::specs::Answers::says, words_claims::specs::Calls::verdict_says))]
pub fn claimed(a: Result<Verdict, Refusal>) -> Answer
    ensures { result ≡ plain (claimed_says a) }
{
    match a {
        Ok(Verdict::Yes) => success(1),
        Ok(Verdict::Copies(count)) => both(2, count),
        Ok(Verdict::Shorter(root)) => both(3, root),
        Ok(Verdict::Outside) => success(4),
        Err(why) => refused(why),
    }
}

// what the log reader gives
#[tactic(auto, unfolding(words::specs::Answers::entry_says, crate::specs::Plain::plain_move, crate::specs::Plain::entry_move))]
pub fn taken(t: Taken) -> Move
    ensures { result ≡ plain_move t }
{
    match t.entry {
        Some(e) => Move {
            at: t.at,
            found: 1,
            width: e.width,
            name: e.name,
            position: e.position,
        },
        None => Move {
            at: t.at,
            found: 0,
            width: 0,
            name: 0,
            position: 0,
        },
    }
}

// what `lookup` gives
#[tactic(auto, unfolding(words_index::specs::Calls::looked_says, crate::specs::Plain::plain_looked, crate::specs::Plain::entry_found))]
pub fn looked(a: Option<Looked>) -> Found
    ensures { result ≡ plain_looked a }
{
    match a {
        Some(e) => Found {
            found: 1,
            place: e.place as u64,
            first: e.first,
            lines: e.lines,
            largest: e.largest,
        },
        None => Found::default(),
    }
}
