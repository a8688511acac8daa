// The log reader: it holds the lent log and the place reached, and each call gives the next whole entry as it stands and the place one further,
// or says that the log has ended and keeps its place. One call is the definition `reader_takes`, for every log and every place. The work is done
// on the slice and the number, by `take_at`; over the struct there are only thin methods. A reader is an `Iterator`: `for entry in reader` walks the log.
#![tactic(auto, unfolding(words::specs::Calls::reader_takes))]

ghost use Rattle.std.specs.Prelude.{◌≡◌, ◌-◌};
ghost use Rattle.std.specs.Iterator.{at_most};
ghost use Rattle.words.specs.Rows.{rows};
ghost use Rattle.words.specs.Moves.{move_size};
ghost use Rattle.words.specs.Calls.{reader_takes};
ghost use Rattle.call_reader.specs.Readers.{takes, placed};

use row_moves::{entries, name_of, place_of, width_of};
use std::iter::FusedIterator;
use words::{Entry, Taken};

#[derive(Clone, Copy)]
pub struct LogReader<'a> {
    pub log: &'a [u16],
    pub at: usize,
}

// the entry at a place, counted in whole entries from 0
fn entry_at(log: &[u16], at: usize) -> Option<Entry>
    ensures { result ≡ (reader_takes log.now at).entry }
{
    let whole = entries(log);
    if at < whole {
        let width = width_of(log, at);
        let name = name_of(log, at);
        let position = place_of(log, at);
        return Some(Entry {
            width,
            name,
            position,
        });
    }
    None
}

// the place to go on from: one further, or the same if the log has ended
fn place_after(log: &[u16], at: usize) -> usize
    ensures { result ≡ (reader_takes log.now at).at }
{
    let end = entries(log);
    if at < end { at + 1 } else { at }
}

// one call, on the slice and the number, which is what C holds of a reader
pub fn take_at(log: &[u16], at: usize) -> Taken
    ensures { result ≡ reader_takes log.now at }
{
    let entry = entry_at(log, at);
    let next = place_after(log, at);
    Taken { entry, at: next }
}

impl<'a> LogReader<'a> {
    // a reader at the first entry
    pub fn new(log: &'a [u16]) -> LogReader<'a>
        ensures { result ≡ record { log = log.entry; at = 0 } }
    {
        LogReader { log, at: 0 }
    }
}

// one call gives the next entry, keeps the log, and goes on from the place that it gives; at most the whole entries from that place on are left
impl<'a> Iterator for LogReader<'a> {
    type Item = Entry;

    ghost next_gives = { λ old result new. (result ≡ (takes old).entry) × (new ≡ placed old (takes old).at) };

    ghost remaining = { λ r. at_most (rows move_size r.log.now - r.at) };

    fn next(&mut self) -> Option<Entry> {
        let t = take_at(self.log, self.at);
        self.at = t.at;
        t.entry
    }
}

// a log that has ended says so for ever (`Walks.call_ended`)
impl<'a> FusedIterator for LogReader<'a> {}

// one call of a reader that is made at a place and lent: `next` for a caller that has only the slice and the number
pub fn call_once(log: &[u16], at: usize) -> Taken
    ensures taken { result ≡ reader_takes log.now at }
{
    let mut r = LogReader { log, at };
    let entry = r.next();
    Taken { entry, at: r.at }
}
