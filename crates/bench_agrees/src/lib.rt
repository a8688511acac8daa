// The bench's own check that the list's lines of one period are those that the groups of that width give, code apart from the lister's; and
// the rows of one width in a log, a list or the runs. Each public function promises what its definition in specs/ says, for every slice.
#![tactic(auto)]

ghost use Rattle.std.specs.Prelude.{◌≡◌, ◌+◌, ◌≤◌, ◌<◌, length};
ghost use Rattle.words.specs.Rows.{rows};
ghost use Rattle.words.specs.Groups.{gap as distance};
ghost use Rattle.row_matches.specs.Matching.{reached, Passes};
ghost use Rattle.bench_agrees.specs.Parts.{part_end, part_from};
ghost use Rattle.bench_agrees.specs.Agreement.{copies_in, line_in, agrees_at};

use bench_links::{Links, link};
use row_cells::{cell, count, part};
use row_matches::{begin, ended, pass_line};
use slots::wide;

// the first row of c numbers, from a row on, whose number j is not w: where a log's width ends, or a list's period
fn part_end(list: &[u16], c: usize, j: usize, w: usize, from: usize) -> usize
    requires { (j < c) × (from ≤ rows c list.now) }
    ensures { result ≡ part_end c list.now j w from }
{
    let end = count(list, c);
    for k in from..end {
        if wide(cell(list, c, k, j)) != w {
            return k;
        }
    }
    end
}

// the rows from a row on, up to that one
pub fn part_from<'a>(list: &'a [u16], c: usize, j: usize, w: usize, from: usize) -> &'a [u16]
    requires { (j < c) × (from ≤ rows c list.now) }
    ensures { result.now ≡ part_from c list.now j w from }
{
    let end = part_end(list, c, j, w, from);
    part(list, c, from, end)
}

// the distance from position i to the next position of its group, 0 if there is none: a number, since the definition counts 0 as a distance
fn gap(links: &Links, i: usize) -> usize
    requires { (1 ≤ i) × (i ≤ length links.now.table.now) }
    ensures { result ≡ distance links.now.table.now i }
{
    match links.next_of(i) {
        Some(j) => j - i,
        None => 0,
    }
}

// the copies from position i on, by the starts p apart
fn copies(links: &Links, p: usize, i: usize) -> usize
    requires { (1 ≤ i) × (i ≤ length links.now.table.now) }
    ensures { result ≡ copies_in links.now.table.now p i }
{
    let mut j = i;
    for k in 0..links.table.len() {
        if gap(links, j) != p {
            return k + 1;
        }
        j += p;
    }
    links.table.len() + 1
}

// one position more: its line, if it is a start
fn agree_one(
    links: &Links,
    p: usize,
    i: usize,
    lines: &[u16],
    m: Result<usize, usize>,
) -> Result<usize, usize>
    requires { (1 ≤ i) × (i ≤ length links.now.table.now) × (reached m ≤ length lines.now) }
    ensures { Passes (line_in links.now.table.now p i) lines.now m result }
{
    let d = gap(links, i);
    let starts = d == p;
    if !starts {
        return m;
    }
    pass_line(lines, m, i, p, copies(links, p, i))
}

// all positions, by their links
fn agree_all(links: &Links, p: usize, lines: &[u16]) -> bool
    ensures { result ≡ agrees_at links.now.table.now p lines.now }
{
    let mut m = begin();
    for i in 0..links.table.len() {
        m = agree_one(links, p, i + 1, lines, m);
    }
    ended(lines, m)
}

// are these exactly the lines that the groups of width p give?
pub fn agree_at(table: &[u16], p: usize, lines: &[u16]) -> bool
    ensures { result ≡ agrees_at table.now p lines.now }
{
    let mut head = [0u16; 1000];
    let mut after = [0u16; 1000];
    let k = link(table, &mut head, &mut after);
    let links = Links {
        table,
        head: &head[..k],
        after: &after[..k],
    };
    agree_all(&links, p, lines)
}
