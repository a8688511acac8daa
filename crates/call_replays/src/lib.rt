// The replay of a log that is handed in. `replay` refuses what document 01 says, in its order, and else writes the table of groups at the asked width
// by the replay rule, for any read, log, width and slice. The whole log is judged first, by `call_judges`. The groups start as those of width 1, and
// `call_renames` goes on from width to width, in place.
#![tactic(auto)]

ghost use Rattle.std.specs.Prelude.{◌≡◌, not, ◌||◌, ◌≤◌, length, eqb};
ghost use Rattle.words.specs.Groups.{table};
ghost use Rattle.words.specs.Moves.{top_of};
ghost use Rattle.words.specs.Replay.{replay};
ghost use Rattle.words.specs.Logs.{within};
ghost use Rattle.words.specs.Answers.{counted_says};
ghost use Rattle.words.specs.Calls.{replay_answer, replay_leaves};
ghost use Rattle.slots.specs.Slots.{view};
ghost use Rattle.call_judges.specs.Judge.{Formed};
ghost use Rattle.call_renames.specs.Split.{Rooms};

use call_judges::{first_bad, well_formed};
use call_renames::{Renaming, empty_rooms, replay_width};
use read_edges::{check_length, copy_names, top_of};
use read_letters::last_alike;
use slots::{load, store, wide};
use words::Refusal;

// ---- the replay

// the groups of width 1: each position is named as the last before it that compares as it does, and by itself if there is none
pub fn first_groups(name: &mut [u16; 1000], read: &[u8], n: u16)
    requires { (n ≤ 1000) × (length read.now ≡ n) × (length name.old ≡ 1000) }
    ensures { (length name.new ≡ 1000) × (view n name.new ≡ table read.now 1) }
{
    let mut seen = [0u16; 256];
    for k in 0..n {
        let i = k + 1;
        let l = last_alike(&mut seen, read[wide(k)], i);
        let s = match l {
            Some(l) => load(name, l),
            None => i,
        };
        store(name, i, s);
    }
}

// the groups at a width, by the replay of a log whose entries are good
fn replay_all(r: &mut Renaming, read: &[u8], log: &[u16], n: u16, width: u16)
    requires { Formed n log.now × (length read.now ≡ n) × (length r.old.name ≡ 1000) × Rooms r.old.mark r.old.lead r.old.part × (1 ≤ width) }
    ensures { (length r.new.name ≡ 1000) × (view n r.new.name ≡ replay read.now log.now width) }
{
    first_groups(&mut r.name, read, n);
    let mut k: usize = 0;
    for v in 1..width {
        k = replay_width(r, log, n, k, v);
    }
}

// ---- the call

// is the width no width of the log's tables?
fn bad_width(n: u16, width: u32) -> bool
    ensures { result ≡ eqb n 0 || not (within 1 (top_of n) width) }
{
    n == 0 || !(1..=u32::from(top_of(n))).contains(&width)
}

// The table at a width, by the replay of a log that is handed in, to the front of `out`.
pub fn replay(read: &[u8], log: &[u16], width: u32, out: &mut [u16]) -> Result<usize, Refusal>
    ensures { (counted_says result ≡ replay_answer read.now log.now width out.old)
        × (out.new ≡ replay_leaves read.now log.now width out.old) }
{
    check_length(read)?;
    let long = read.len();
    let n = long as u16;
    if bad_width(n, width) {
        return Err(Refusal::OutOfRange(width));
    }
    if out.len() < long {
        return Err(Refusal::NoRoom(long));
    }
    let k = first_bad(log, n);
    if !well_formed(log, n, k) {
        return Err(Refusal::BadEntry(k));
    }
    let mut r = empty_rooms();
    replay_all(&mut r, read, log, n, width as u16);
    copy_names(out, &r.name, n);
    Ok(long)
}
