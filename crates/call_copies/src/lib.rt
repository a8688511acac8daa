// The words that a claim rests on, each decided for any read and any numbers: how often a motif stands in a row (`copies_at`), how long its primitive root is (`root_at`),
// whether a repeat leads (`is_leading`). Each promises the definition of its word. They are meant for a start and a period from 1 on; at 0, and past the read's
// end, they answer what the definition computes there, and so ask for nothing. Each compares no more bases than the read has, `root_at` less than four periods.
#![tactic(auto)]

ghost use Rattle.std.specs.Prelude.{◌≡◌, ◌+◌, ◌≤◌, ◌<◌, length};
ghost use Rattle.words.specs.Reads.{at, alike};
ghost use Rattle.words.specs.Repeats.{leads, copies as copies_of};
ghost use Rattle.words_claims.specs.Claims.{root};
ghost use Rattle.call_copies.specs.Copies.{farthest, agreed, agreed_inside};

use read_letters::same_base;

// the byte at position i, and 0 past the read's end. Position 0, which is none, is taken for 1, as in the definition
fn byte_at(read: &[u8], i: usize) -> u8
    ensures { result ≡ at read.now i }
{
    read.get(i.saturating_sub(1)).copied().unwrap_or(0)
}

// are the p bytes from position i those p further? Once the first have left the read, so have the others, and all are 0
fn stand_again(read: &[u8], i: usize, p: usize) -> bool
    requires { i + p ≤ farthest }
    ensures { result ≡ alike read.now p i (i + p) }
{
    let n = read.len();
    for k in 0..p {
        if n < i + k {
            return true;
        }
        if !same_base(byte_at(read, i + k), byte_at(read, i + p + k)) {
            return false;
        }
    }
    true
}

// how many of the w bytes from position i on are those d further, up to the first that is not. Both stretches lie in the read, so that
// the bytes are read as they stand, in a quick loop; only the first can be that of position 0
fn agree(read: &[u8], i: usize, w: usize, d: usize) -> usize
    requires { (1 ≤ d) × (i + d + w ≤ length read.now + 1) }
    ensures { result ≡ agreed read.now w i (i + d) }
{
    if w == 0 {
        return 0;
    }
    let other = i + d;
    if !same_base(byte_at(read, i), byte_at(read, other)) {
        return 0;
    }
    for k in 1..w {
        if !same_base(read[i + k - 1], read[other + k - 1]) {
            return k;
        }
    }
    w
}

// how often the motif of a start and a period stands in a row: once, and once more for each whole period of bytes that are those a
// period further. No more than n are counted, as in the definition, which tells only where the start or the period is 0
pub fn copies_at(read: &[u8], start: u32, period: u32) -> usize
    ensures { result ≡ copies_of read.now start period }
{
    let i = start as usize;
    let p = period as usize;
    let n = read.len();
    if n + 1 < i + p {
        return 0;
    }
    if p == 0 {
        return n;
    }
    let e = agree(read, i, n + 1 - i - p, p) / p + 1;
    e.min(n)
}

// how many bases of the motif of p bytes from position i, which lies in the read, are those d further in it, up to the first that is not; none where p
// is no multiple of d
fn agree_inside(read: &[u8], i: usize, p: usize, d: usize) -> usize
    requires { (1 ≤ d) × (d < p) × (i + p ≤ length read.now + 1) }
    ensures { result ≡ agreed_inside read.now i p d }
{
    if p % d != 0 {
        return 0;
    }
    agree(read, i, p - d, d)
}

// the length of the primitive root of the motif of a start and a period; of one that does not lie in the read it is the whole. Lengths are tried upwards, and none beyond
// the half divides p. Where m bases agree and the next does not, no length up to m writes the motif (`jump_writes`); so each try costs less than the next
// length that is tried, and all together less than the divisors of p add up to: less than 4 p bases
pub fn root_at(read: &[u8], start: u32, period: u32) -> usize
    ensures { result ≡ root read.now start period }
{
    let i = start as usize;
    let p = period as usize;
    if p < 2 {
        return 1;
    }
    if read.len() + 1 < i + p {
        return p;
    }
    let half = p / 2;
    let mut d = 1;
    // it stays a `while`: how far d jumps is known only in its turn, which an iterator makes no plainer
    while d <= half {
        let m = agree_inside(read, i, p, d);
        if m == p - d {
            return d;
        }
        d = d.max(m) + 1;
    }
    p
}

// does a repeat of this start and period lead: is the start at most the period, or does the motif not stand a period before it?
pub fn is_leading(read: &[u8], start: u32, period: u32) -> bool
    ensures { result ≡ leads read.now start period }
{
    start <= period || !stand_again(read, (start - period) as usize, period as usize)
}
