// The table of a read's groups at one width. `group_table` answers any read, any width and any slice, and promises document 01's answer and what it
// leaves in the slice. The table is made by the steps of the partition's rows from width 1; they end early once nothing moves, since the groups
// then stay as they are.
#![tactic(auto)]

ghost use Rattle.std.specs.Prelude.{◌≡◌, ◌++◌, ◌≤◌, length, drop};
ghost use Rattle.words.specs.Groups.{table};
ghost use Rattle.words.specs.Logs.{within};
ghost use Rattle.words.specs.Answers.{counted_says};
ghost use Rattle.words.specs.Calls.{table_answer, table_leaves};

use read_edges::{check_length, copy_names};
use step1_rows::NAME;
use step2_bits::Places;
use step3_lists::pass;
use steps::{begin, onward};
use words::Refusal;

// the table at width w goes to the front of `out`
fn write_table(out: &mut [u16], read: &[u8], w: u16)
    requires { (length read.now ≤ 1000) × (length read.now ≤ length out.old) × (1 ≤ w) × (w ≤ 1000) }
    ensures { out.new ≡ table read.now w ++ drop (length read.now) out.old }
{
    let n = read.len() as u16;
    let mut a = [[0u16; 1000]; 12];
    let mut small = Places::none();
    // the starts of the widths, which no table asks for
    let mut found = Places::none();
    begin(&mut a, &mut small, read, n);
    let mut v: u16 = 1;
    // a `for` is no plainer: `onward` says which width is next, and ends the walk once nothing moves
    while v < w {
        pass(&mut found, &mut a, v);
        v = onward(&mut a, &mut small, n, v, w);
    }
    copy_names(out, &a[NAME], n);
}

// is it a width of a read of n bytes?
fn is_width(n: u32, width: u32) -> bool
    ensures { result ≡ within 1 n width }
{
    (1..=n).contains(&width)
}

// The table at a width, to the front of `out`.
pub fn group_table(read: &[u8], width: u32, out: &mut [u16]) -> Result<usize, Refusal>
    ensures { (counted_says result ≡ table_answer read.now width out.old)
        × (out.new ≡ table_leaves read.now width out.old) }
{
    check_length(read)?;
    let long = read.len();
    if !is_width(long as u32, width) {
        return Err(Refusal::OutOfRange(width));
    }
    if out.len() < long {
        return Err(Refusal::NoRoom(long));
    }
    write_table(out, read, width as u16);
    Ok(long)
}
