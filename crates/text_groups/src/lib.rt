// The text of the groups of one width, from their table: the groups of two or more, each on a line, and then the positions that are alone.
// The table is linked first, so that no name and no position is looked for twice. Each function promises its text byte by byte, the place
// after it, and that the rest of the buffer is as it was.
#![tactic(auto)]

ghost use Rattle.std.specs.Prelude.{◌≡◌, ◌++◌, ◌+◌, ◌<◌, min, length};
ghost use Rattle.words.specs.Range.{count};
ghost use Rattle.words.specs.Groups.{size};
ghost use Rattle.text_puts.specs.Puts.{Room, Puts};
ghost use Rattle.text_groups.specs.Groups.{spaced, shown, members_text, group_text, groups_text, alone, singles_text, alone_text};

use bench_links::{Links, link};
use slots::wide;
use text_puts::{put_number, put_word};

// a number after a space
pub fn put_spaced(buf: &mut [u8], at: usize, n: usize) -> usize
    requires { Room buf.old at (spaced n) }
    ensures { Puts buf.old at (spaced n) buf.new result }
{
    let mut text = [0u8; 20];
    let k = io::decimal(n as u64, &mut text);
    let next = put_word(buf, at, b" ");
    put_word(buf, next, &text[..k])
}

// the same, where a test says so
fn put_shown(buf: &mut [u8], at: usize, test: bool, n: usize) -> usize
    requires { Room buf.old at (shown test n) }
    ensures { Puts buf.old at (shown test n) buf.new result }
{
    if test { put_spaced(buf, at, n) } else { at }
}

// how many positions the group named s has, 2 for any more
fn few_of(links: &Links, s: usize) -> usize
    ensures { result ≡ min 2 (size links.now.table.now s) }
{
    let Some(i) = links.first_of(s) else {
        return 0;
    };
    if links.next_of(i).is_some() { 2 } else { 1 }
}

// the positions of the group named s
fn put_members(buf: &mut [u8], at: usize, links: &Links, s: usize) -> usize
    requires { Room buf.old at (members_text links.now.table.now s) }
    ensures { Puts buf.old at (members_text links.now.table.now s) buf.new result }
{
    let mut next = at;
    let mut here = links.first_of(s);
    while let Some(i) = here {
        next = put_spaced(buf, next, i);
        here = links.next_of(i);
    }
    next
}

// the group named s, if it has two positions or more
fn put_group(buf: &mut [u8], at: usize, links: &Links, s: usize) -> usize
    requires { Room buf.old at (group_text links.now.table.now s) }
    ensures { Puts buf.old at (group_text links.now.table.now s) buf.new result }
{
    let small = few_of(links, s) < 2;
    if small {
        return at;
    }
    let next = put_word(buf, at, b"  group ");
    let next = put_number(buf, next, s as u64, b':');
    let next = put_members(buf, next, links, s);
    put_word(buf, next, b"\n")
}

// the groups of two or more
fn put_groups(buf: &mut [u8], at: usize, links: &Links) -> usize
    requires { Room buf.old at (groups_text links.now.table.now) }
    ensures { Puts buf.old at (groups_text links.now.table.now) buf.new result }
{
    let mut next = at;
    for i in 0..links.table.len() {
        next = put_group(buf, next, links, i + 1);
    }
    next
}

// is the position at place i alone in its group?
fn is_alone(links: &Links, i: usize) -> bool
    requires { i < length links.now.table.now }
    ensures { result ≡ alone links.now.table.now (i + 1) }
{
    few_of(links, wide(links.table[i])) == 1
}

// how many positions are alone in their group
fn count_alone(links: &Links) -> usize
    ensures { result ≡ count (alone links.now.table.now) (length links.now.table.now) 1 }
{
    let mut k = 0;
    for i in 0..links.table.len() {
        if is_alone(links, i) {
            k += 1;
        }
    }
    k
}

// the positions that are alone in their group
fn put_singles(buf: &mut [u8], at: usize, links: &Links) -> usize
    requires { Room buf.old at (singles_text links.now.table.now) }
    ensures { Puts buf.old at (singles_text links.now.table.now) buf.new result }
{
    let mut next = at;
    for i in 0..links.table.len() {
        next = put_shown(buf, next, is_alone(links, i), i + 1);
    }
    next
}

// their line, if there are any
fn put_alone(buf: &mut [u8], at: usize, links: &Links) -> usize
    requires { Room buf.old at (alone_text links.now.table.now) }
    ensures { Puts buf.old at (alone_text links.now.table.now) buf.new result }
{
    if count_alone(links) == 0 {
        return at;
    }
    let next = put_word(buf, at, b"  alone:");
    let next = put_singles(buf, next, links);
    put_word(buf, next, b"\n")
}

// all groups of a table, which is linked first
pub fn put_table(buf: &mut [u8], at: usize, table: &[u16]) -> usize
    requires { Room buf.old at (groups_text table.now ++ alone_text table.now) }
    ensures { Puts buf.old at (groups_text table.now ++ alone_text table.now) buf.new result }
{
    let mut head = [0u16; 1000];
    let mut after = [0u16; 1000];
    let k = link(table, &mut head, &mut after);
    let links = Links {
        table,
        head: &head[..k],
        after: &after[..k],
    };
    let next = put_groups(buf, at, &links);
    put_alone(buf, next, &links)
}
