// One position of a replay gets its new name. The groups split by marks, and the positions are met in order of the mark, then the position: `lead` has,
// at the name of each old group, the leader of its part that was met last, which is the only one that can have more. `name_stayer` names a position that
// stays, `name_mover` one that moves; `clean_one` takes away what the two left of a position.
#![tactic(auto)]

ghost use Rattle.std.specs.Prelude.{◌≡◌, not, ◌≤◌};
ghost use Rattle.words.specs.Reads.{at};
ghost use Rattle.slots.specs.Slots.{put};
ghost use Rattle.call_names.specs.Heads.{joined, part_of, Nameable, Renamed, StayerRenamed, Leads};

use slots::{load, store};

// is i of the part of its group that f leads? 0 leads none
fn joins(mark: &[u16; 1000], f: u16, i: u16) -> bool
    requires { (f ≤ 1000) × (1 ≤ i) × (i ≤ 1000) }
    ensures { result ≡ joined mark.now f i }
{
    0 < f && load(mark, f) == load(mark, i)
}

// position i of the old group k gets its new name; returns whether it leads a new part
fn name_one(
    name: &mut [u16; 1000],
    lead: &mut [u16; 1000],
    mark: &[u16; 1000],
    k: u16,
    i: u16,
) -> bool
    requires { Nameable lead.old k i }
    ensures { Renamed mark.now k i name.old lead.old name.new lead.new × (result ≡ not (joined mark.now (at lead.old k) i)) }
{
    let f = load(lead, k);
    // returned early: the two ways write other arrays
    if joins(mark, f, i) {
        store(name, i, f);
        return false;
    }
    store(lead, k, i);
    store(name, i, i);
    true
}

// .. if it stays and the position that names its group does not
pub fn name_stayer(name: &mut [u16; 1000], lead: &mut [u16; 1000], mark: &[u16; 1000], i: u16)
    requires { Nameable lead.old (at name.old i) i }
    ensures { StayerRenamed mark.now i name.old lead.old name.new lead.new }
{
    if load(mark, i) == 0 {
        let k = load(name, i);
        if 0 < load(mark, k) {
            name_one(name, lead, mark, k, i);
        }
    }
}

// position i gets its new name; if it leads a new part, the name of the old group is kept in `part`, at i
pub fn name_mover(
    name: &mut [u16; 1000],
    lead: &mut [u16; 1000],
    part: &mut [u16; 1000],
    mark: &[u16; 1000],
    i: u16,
)
    requires { Nameable lead.old (at name.old i) i }
    ensures { Renamed mark.now (at name.old i) i name.old lead.old name.new lead.new × (part.new ≡ part_of lead.old mark.now part.old (at name.old i) i) }
{
    let k = load(name, i);
    if name_one(name, lead, mark, k, i) {
        store(part, i, k);
    }
}

// the mark of position i goes, and what leads its old group
pub fn clean_one(
    mark: &mut [u16; 1000],
    lead: &mut [u16; 1000],
    name: &[u16; 1000],
    part: &[u16; 1000],
    i: u16,
)
    requires { Leads name.now part.now i }
    ensures { (mark.new ≡ put mark.old i 0) × (lead.new ≡ put lead.old (at part.now (at name.now i)) 0) }
{
    let h = load(name, i);
    let k = load(part, h);
    store(lead, k, 0);
    store(mark, i, 0);
}
