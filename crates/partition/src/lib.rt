// The groups of a read at one width, as a value that steps to the next. A partition holds the read's length, the width, the names of the groups, their
// sizes, the links between their positions, the lists on which positions wait for their distance, and which groups are small: nothing of the read and
// nothing of another width. It is thin: a step is made on rows (crate steps), which the list, the group table and the log keep from width to width.
#![tactic(auto)]

ghost use Rattle.std.specs.Prelude.{◌≡◌, ◌≤◌, ◌<◌, length};
ghost use Rattle.words.specs.Steps.{step_width, step_table, step_smalls, step_count};
ghost use Rattle.step1_rows.specs.Rows.{NAME, SIZE, PREV, DIST, HEAD, AFTER};
ghost use Rattle.partition.specs.Stand.{rows_of, Good, Of, groups, small_ones};
ghost use Rattle.partition.specs.Kept.{KeptAs};

use step1_rows::{AFTER, DIST, HEAD, NAME, PREV, SIZE};
use step2_bits::Places;
use step3_lists::pass;
use steps::{advance, begin};

#[derive(Drop)]
pub struct Partition {
    pub n: u16,
    pub width: u16,
    pub name: [u16; 1000],
    pub size: [u16; 1000],
    pub prev: [u16; 1000],
    pub dist: [u16; 1000],
    pub head: [u16; 1000],
    pub after: [u16; 1000],
    pub small: Places,
}

// A partition at the next width, and the number of moves that led there.
#[derive(Drop)]
pub struct Stepped {
    pub partition: Partition,
    pub moves: u16,
}

// the rows of a partition, and scratch of zeros
fn rows_of(p: Partition) -> [[u16; 1000]; 12]
    ensures { result ≡ rows_of p }
{
    let Partition {
        name,
        size,
        prev,
        dist,
        head,
        after,
        ..
    } = p;
    let blank = [0u16; 1000];
    [
        name, size, prev, dist, head, after, blank, blank, blank, blank, blank, blank,
    ]
}

// the partition that the rows hold
fn kept(a: &[[u16; 1000]; 12], small: Places, n: u16, width: u16) -> Partition
    ensures { KeptAs a.now small n width result }
{
    Partition {
        n,
        width,
        name: a[NAME],
        size: a[SIZE],
        prev: a[PREV],
        dist: a[DIST],
        head: a[HEAD],
        after: a[AFTER],
        small,
    }
}

impl Partition {
    pub const MOST: usize = read_edges::MOST;

    // the partition of a read at width 1
    pub fn fresh(read: &[u8]) -> Partition
        requires { length read.now ≤ 1000 }
        ensures { Of read.now 1 result }
    {
        let n = read.len() as u16;
        let mut a = [[0u16; 1000]; 12];
        let mut small = Places::none();
        begin(&mut a, &mut small, read, n);
        kept(&a, small, n, 1)
    }

    // the partition at the next width; at width n, and for an empty read, as it was
    pub fn step(mut self) -> Stepped
        requires { Good self }
        ensures { Good result.partition × (result.partition.n ≡ self.n) × (result.partition.width ≡ step_width self.width (groups self)) × (groups result.partition ≡ step_table self.width (groups self) (small_ones self)) × (small_ones result.partition ≡ step_smalls self.width (groups self) (small_ones self)) × (result.moves ≡ step_count self.width (groups self) (small_ones self)) × (self.n ≤ self.width → result.partition ≡ self) }
    {
        let n = self.n;
        let w = self.width;
        if n <= w {
            return Stepped {
                partition: self,
                moves: 0,
            };
        }
        let mut small = self.small;
        let mut a = rows_of(self);
        let mut found = Places::none();
        pass(&mut found, &mut a, w);
        let m = advance(&mut a, &mut small, n, w);
        self = kept(&a, small, n, w + 1);
        Stepped {
            partition: self,
            moves: m,
        }
    }
}
