// The arrays that a step works on are rows of one array, so that a function is lent one thing. A row has a place for each of 1,000 positions, from 1,
// and is named by a constant; the first six are the partition's, the others are the scratch of a step. A store is an equation of the whole, and
// whoever writes to some rows says that no other row is changed (`Only`).
#![tactic(auto)]

ghost use Rattle.std.specs.Prelude.{◌≡◌, ◌≤◌, ◌<◌};
ghost use Rattle.words.specs.Reads.{at};
ghost use Rattle.step1_rows.specs.Rows.{row, put_at};

use slots::wide;

// the name of each position's group
pub const NAME: usize = 0;
// the size of each group, at its name
pub const SIZE: usize = 1;
// the position before each position in its group
pub const PREV: usize = 2;
// the distance of each position to the next in its group
pub const DIST: usize = 3;
// the first position that waits on the list of each distance
pub const HEAD: usize = 4;
// one more than the position that follows on its list, so 1 for the last there; 0 for a position on no list
pub const AFTER: usize = 5;
// the positions that move, in their order; then the names of the new parts
pub const QUE: usize = 6;
// at the name of a group: the part that its positions go to now
pub const PART: usize = 7;
// at the name of a group: the last position that moved out of it
pub const TAIL: usize = 8;
// at the name of a group: the least position that is left of it; then the best of its parts
pub const REST: usize = 9;
// the size of each part, at its name
pub const MANY: usize = 10;
// the names of the groups that split
pub const TOUCHED: usize = 11;

// the number at place i of row r; 1 is taken off once i is wide, where the compiler makes it part of the address
pub fn load(a: &[[u16; 1000]; 12], r: usize, i: u16) -> u16
    requires { (r < 12) × (1 ≤ i) × (i ≤ 1000) }
    ensures { result ≡ at (row a.now r) i }
{
    let k = (i as usize) - 1;
    a[r][k]
}

// v is stored at place i of row r
pub fn store(a: &mut [[u16; 1000]; 12], r: usize, i: u16, v: u16)
    requires { (r < 12) × (1 ≤ i) × (i ≤ 1000) }
    ensures { a.new ≡ put_at a.old r i v }
{
    let k = (i as usize) - 1;
    a[r][k] = v;
}

// the same by a wide place: a loop that adds distances to a place widens nothing
pub fn load_wide(a: &[[u16; 1000]; 12], r: usize, i: usize) -> usize
    requires { (r < 12) × (1 ≤ i) × (i ≤ 1000) }
    ensures { result ≡ at (row a.now r) i }
{
    wide(a[r][i - 1])
}

pub fn store_wide(a: &mut [[u16; 1000]; 12], r: usize, i: usize, v: u16)
    requires { (r < 12) × (1 ≤ i) × (i ≤ 1000) }
    ensures { a.new ≡ put_at a.old r i v }
{
    a[r][i - 1] = v;
}
