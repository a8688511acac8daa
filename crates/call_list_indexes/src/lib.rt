// The list of a read's repeats and the period index beside it, in one call. `list_index` answers any read, mode and slices; its contract settles the answer and
// both slices afterwards. Refusal 7 leaves the list as it was too, so both counts are known before a line is written: where the index has room for an entry
// of each width that refusal cannot come, and the list is made at once; else the lines and the periods are counted first.
#![tactic(auto)]

ghost use Rattle.std.specs.Prelude.{◌≡◌, ◌≤◌, length};
ghost use Rattle.words.specs.Rows.{rows};
ghost use Rattle.words.specs.Lists.{lines as lines_of, in_mode};
ghost use Rattle.words_index.specs.Index.{entry_size, entry_count};
ghost use Rattle.words_index.specs.Calls.{list_index_answer, list_index_leaves, list_index_beside, list_indexed_says};

use call_blocks::index_lines;
use call_widths::{count_widths, list_widths};
use read_edges::{check_length, top_of};
use row_cells::clear;
use row_entries::entries as room_of;
use row_lines::{line_size, room};
use words::Refusal;
use words_index::ListIndexed;

// the list, and its index, for which there is room
fn write_both(
    read: &[u8],
    mode: u32,
    out: &mut [u16],
    index: &mut [u64],
) -> Result<ListIndexed, Refusal>
    requires { (length read.now ≤ 1000) × (mode ≤ 1) × (entry_count (lines_of read.now (in_mode read.now mode)) ≤ rows entry_size index.old) }
    ensures { (list_indexed_says result ≡ list_index_answer read.now mode out.old index.old)
        × (out.new ≡ list_index_leaves read.now mode out.old index.old)
        × (index.new ≡ list_index_beside read.now mode out.old index.old) }
{
    let t = list_widths(out, read, mode);
    let lines = t.rows;
    if room(out) < lines {
        clear(out);
        return Err(Refusal::ListFull(lines));
    }
    let size = line_size() * lines;
    let entries = index_lines(&out[..size], index);
    Ok(ListIndexed { lines, entries })
}

// the same where the index may have too little room: both are counted first
fn count_both(
    read: &[u8],
    mode: u32,
    out: &mut [u16],
    index: &mut [u64],
) -> Result<ListIndexed, Refusal>
    requires { (length read.now ≤ 1000) × (mode ≤ 1) }
    ensures { (list_indexed_says result ≡ list_index_answer read.now mode out.old index.old)
        × (out.new ≡ list_index_leaves read.now mode out.old index.old)
        × (index.new ≡ list_index_beside read.now mode out.old index.old) }
{
    let t = count_widths(read, mode);
    let lines = t.rows;
    if room(out) < lines {
        clear(out);
        return Err(Refusal::ListFull(lines));
    }
    let needed = t.periods;
    if room_of(index) < needed {
        return Err(Refusal::IndexFull(needed));
    }
    write_both(read, mode, out, index)
}

// The list of a read's repeats to the front of `out`, and its index to the front of `index`.
pub fn list_index(
    read: &[u8],
    mode: u32,
    out: &mut [u16],
    index: &mut [u64],
) -> Result<ListIndexed, Refusal>
    ensures { (list_indexed_says result ≡ list_index_answer read.now mode out.old index.old)
        × (out.new ≡ list_index_leaves read.now mode out.old index.old)
        × (index.new ≡ list_index_beside read.now mode out.old index.old) }
{
    check_length(read)?;
    if 1 < mode {
        return Err(Refusal::OutOfRange(mode));
    }
    if room_of(index) < top_of(read.len() as u16) as usize {
        return count_both(read, mode, out, index);
    }
    write_both(read, mode, out, index)
}
