// One width of a replay, in place. The log's entries of the width, a block that stands together, mark the positions that they move, and the groups
// split by the marks: `replay_width` makes the names of width v + 1 of those of width v. The positions that stay keep their names, unless the position
// that names their group moves; the ones that move get theirs in the log's order, so that the first that is met of a part is its least. A width costs
// its entries, and one pass over the positions if some group loses the position that names it. `mark` and `lead` hold nothing between widths: the entries
// that set them clean them. The contract of `name_movers` asks for some table t that the names came from, and speaks of any such t.
#![tactic(auto)]

ghost use Rattle.std.specs.Prelude.{◌≡◌, List, false, ℕ, ◌+◌, ◌≤◌, ◌<◌, length};
ghost use Rattle.words.specs.Rows.{rows};
ghost use Rattle.words.specs.Moves.{move_size, name_of, place_of};
ghost use Rattle.words.specs.Replay.{after};
ghost use Rattle.slots.specs.Slots.{put, view};
ghost use Rattle.refine.specs.Phases.{Clean};
ghost use Rattle.call_judges.specs.Judge.{Formed};
ghost use Rattle.call_renames.specs.Blocks.{Splits, Marks, Places, Block};
ghost use Rattle.call_renames.specs.Split.{Groups, Rooms, Stayed, Unnamed, Moved, Left};

use call_names::{clean_one, name_mover, name_stayer};
use row_moves::{entries, name_of, place_of, width_of};
use slots::{load, store};

// below so many entries, cleaning after each costs less than two whole arrays
const FEW: usize = 64;

// ---- the entries of one width

// the position of entry q is marked with its name
fn mark_one(mark: &mut [u16; 1000], log: &[u16], q: usize)
    requires { (q < rows move_size log.now) × (1 ≤ place_of log.now q) × (place_of log.now q ≤ 1000) }
    ensures { mark.new ≡ put mark.old (place_of log.now q) (name_of log.now q) }
{
    store(mark, place_of(log, q), name_of(log, q));
}

// the entries of width v, which stand together from `from` on, mark their positions; returns where they end; the contract speaks of n
fn mark_block(mark: &mut [u16; 1000], log: &[u16], n: u16, from: usize, v: u16) -> usize
    requires { Clean mark.old × Formed n log.now × Splits log.now v from }
    ensures { Marks log.now v mark.new × Splits log.now (v + 1) result }
{
    let whole = entries(log);
    for q in from..whole {
        if width_of(log, q) != v {
            return q;
        }
        mark_one(mark, log, q);
    }
    whole
}

// ---- the names of the positions that stay

// in order, each that stays gets its new name if its group loses the position that names it
fn name_rests(name: &mut [u16; 1000], lead: &mut [u16; 1000], mark: &[u16; 1000], n: u16)
    requires { Groups n name.old × Clean lead.old }
    ensures { Stayed n (view n name.old) mark.now n name.new lead.new }
{
    for i in 1..=n {
        name_stayer(name, lead, mark, i);
    }
}

// does an entry's position name its group? The contract speaks of n
fn loses_name(name: &[u16; 1000], log: &[u16], n: u16, from: usize, to: usize) -> bool
    requires { (n ≤ 1000) × Places n log.now from to }
    ensures { result ≡ false → Unnamed name.now log.now from to }
{
    for q in from..to {
        let i = place_of(log, q);
        if load(name, i) == i {
            return true;
        }
    }
    false
}

// the positions that stay get their new names
fn name_stayers(
    name: &mut [u16; 1000],
    lead: &mut [u16; 1000],
    mark: &[u16; 1000],
    log: &[u16],
    n: u16,
    from: usize,
    to: usize,
)
    requires { Groups n name.old × Clean lead.old × Block n log.now mark.now from to }
    ensures { Stayed n (view n name.old) mark.now n name.new lead.new }
{
    if loses_name(name, log, n, from, to) {
        name_rests(name, lead, mark, n);
    }
}

// ---- the names of the positions that move

// each gets its new name, in the log's order; the contract speaks of n
fn name_movers(
    name: &mut [u16; 1000],
    lead: &mut [u16; 1000],
    part: &mut [u16; 1000],
    mark: &[u16; 1000],
    log: &[u16],
    n: u16,
    from: usize,
    to: usize,
)
    requires { Block n log.now mark.now from to × (length part.old ≡ 1000) × ((t : List ℕ) × Stayed n t mark.now n name.old lead.old) }
    ensures { (t : List ℕ) → Stayed n t mark.now n name.old lead.old → Moved n t mark.now log.now from to to name.new lead.new part.new }
{
    for q in from..to {
        name_mover(name, lead, part, mark, place_of(log, q));
    }
}

// ---- the marks and the leaders go

// those of each entry
fn clean_each(
    mark: &mut [u16; 1000],
    lead: &mut [u16; 1000],
    name: &[u16; 1000],
    part: &[u16; 1000],
    log: &[u16],
    from: usize,
    to: usize,
)
    requires { Left log.now from to name.now part.now mark.old lead.old }
    ensures { Clean mark.new × Clean lead.new }
{
    for q in from..to {
        clean_one(mark, lead, name, part, place_of(log, q));
    }
}

// .. or all at once, where the entries are many
fn clean(
    mark: &mut [u16; 1000],
    lead: &mut [u16; 1000],
    name: &[u16; 1000],
    part: &[u16; 1000],
    log: &[u16],
    from: usize,
    to: usize,
)
    requires { Left log.now from to name.now part.now mark.old lead.old }
    ensures { Clean mark.new × Clean lead.new }
{
    if to - from < FEW {
        clean_each(mark, lead, name, part, log, from, to);
    } else {
        *mark = [0u16; 1000];
        *lead = [0u16; 1000];
    }
}

// ---- a width

// What a replay works on: the names of the groups, and the rooms that a width marks and cleans. The passes above are lent single arrays: a pass that is
// lent all of this would have to promise for each array that it leaves alone that it stays.
#[derive(Drop)]
pub struct Renaming {
    pub name: [u16; 1000],
    pub mark: [u16; 1000],
    pub lead: [u16; 1000],
    pub part: [u16; 1000],
}

// rooms that hold nothing
pub fn empty_rooms() -> Renaming
    ensures { (length result.name ≡ 1000) × Rooms result.mark result.lead result.part }
{
    Renaming {
        name: [0u16; 1000],
        mark: [0u16; 1000],
        lead: [0u16; 1000],
        part: [0u16; 1000],
    }
}

// the groups at width v + 1 from those at v; returns where the entries of width v end
pub fn replay_width(r: &mut Renaming, log: &[u16], n: u16, from: usize, v: u16) -> usize
    requires { Groups n r.old.name × Rooms r.old.mark r.old.lead r.old.part × Formed n log.now × Splits log.now v from }
    ensures { Groups n r.new.name × Rooms r.new.mark r.new.lead r.new.part × (view n r.new.name ≡ after (view n r.old.name) log.now v) × Splits log.now (v + 1) result }
{
    let to = mark_block(&mut r.mark, log, n, from, v);
    name_stayers(&mut r.name, &mut r.lead, &r.mark, log, n, from, to);
    name_movers(
        &mut r.name,
        &mut r.lead,
        &mut r.part,
        &r.mark,
        log,
        n,
        from,
        to,
    );
    clean(&mut r.mark, &mut r.lead, &r.name, &r.part, log, from, to);
    to
}
