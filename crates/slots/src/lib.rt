// A work room is an array of 1,000 numbers with a place for each position of a read, from 1. Places are read and written through `load` and `store`, so
// that every contract above speaks of positions.
#![tactic(auto)]

ghost use Rattle.std.specs.Prelude.{◌≡◌, ◌≤◌};
ghost use Rattle.words.specs.Reads.{at};
ghost use Rattle.slots.specs.Slots.{put};

pub fn wide(x: u16) -> usize
    ensures { result ≡ x }
{
    x as usize
}

// the number at place i; 1 is taken off once i is wide, where the compiler makes it part of the address
pub fn load(a: &[u16; 1000], i: u16) -> u16
    requires { (1 ≤ i) × (i ≤ 1000) }
    ensures { result ≡ at a.now i }
{
    let k = wide(i) - 1;
    a[k]
}

// v is stored at place i
pub fn store(a: &mut [u16; 1000], i: u16, v: u16)
    requires { (1 ≤ i) × (i ≤ 1000) }
    ensures { a.new ≡ put a.old i v }
{
    let k = wide(i) - 1;
    a[k] = v;
}
