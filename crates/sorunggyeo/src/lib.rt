// The public calls of documents 01 and 02 for C, and for all that calls C: `rt lib`, in this folder, makes the archive, c/sorunggyeo.h declares them.
// A slice is a pointer and a count. Each call promises what the same call of the library does, by the same definitions: `plain` puts an
// answer into document 01's number (0 for success, else the refusal) and values, and the slice afterwards is a definition of the inputs.
// None has a `requires`.
#![tactic(auto)]

ghost use Rattle.std.specs.Prelude.{◌≡◌};
ghost use Rattle.words.specs.Calls.{list_answer, list_leaves, table_answer, table_leaves, log_answer, log_leaves};
ghost use Rattle.words.specs.Calls.{replay_answer, replay_leaves, reader_takes};
ghost use Rattle.words_index.specs.Calls.{index_answer, index_leaves, list_index_answer, list_index_leaves, list_index_beside, lookup_gives};
ghost use Rattle.words_runs.specs.Calls.{runs_answer, runs_leaves};
ghost use Rattle.words_claims.specs.Calls.{claim_answer};
ghost use Rattle.words_primers.specs.Calls.{find_answer, find_leaves, turn_answer, turn_leaves};
ghost use Rattle.call_answers.specs.Plain.{plain, plain_move, plain_looked};
ghost use Rattle.call_claims.specs.Parts.{motif_part};
ghost use Rattle.words_markers.specs.Calls.{score_answer, shown};
ghost use Rattle.marker_answers.specs.Scores.{plain_score};
ghost use Rattle.marker_calls.specs.Parts.{shown_part};

use call_answers::{Answer, Found, Move};
use call_claims::Part;
use marker_calls::ShownPart;

#[unsafe(no_mangle)]
pub extern "C" fn sorunggyeo_list(read: &[u8], mode: u32, list: &mut [u16]) -> Answer
    ensures { (result ≡ plain (list_answer read.now mode list.old))
        × (list.new ≡ list_leaves read.now mode list.old) }
{
    call_answers::counted(call_lists::list(read, mode, list))
}

// The runs, with the partial copy.
#[unsafe(no_mangle)]
pub extern "C" fn sorunggyeo_runs(read: &[u8], runs: &mut [u16]) -> Answer
    ensures { (result ≡ plain (runs_answer read.now runs.old))
        × (runs.new ≡ runs_leaves read.now runs.old) }
{
    call_answers::counted(call_runs::runs(read, runs))
}

#[unsafe(no_mangle)]
pub extern "C" fn sorunggyeo_group_table(read: &[u8], width: u32, table: &mut [u16]) -> Answer
    ensures { (result ≡ plain (table_answer read.now width table.old))
        × (table.new ≡ table_leaves read.now width table.old) }
{
    call_answers::counted(call_tables::group_table(read, width, table))
}

#[unsafe(no_mangle)]
pub extern "C" fn sorunggyeo_log(read: &[u8], log: &mut [u16]) -> Answer
    ensures { (result ≡ plain (log_answer read.now log.old))
        × (log.new ≡ log_leaves read.now log.old) }
{
    call_answers::counted(call_logs::log(read, log))
}

#[unsafe(no_mangle)]
pub extern "C" fn sorunggyeo_replay(
    read: &[u8],
    log: &[u16],
    width: u32,
    table: &mut [u16],
) -> Answer
    ensures { (result ≡ plain (replay_answer read.now log.now width table.old))
        × (table.new ≡ replay_leaves read.now log.now width table.old) }
{
    call_answers::counted(call_replays::replay(read, log, width, table))
}

// The verdict and the number told with it.
#[unsafe(no_mangle)]
pub extern "C" fn sorunggyeo_claim(read: &[u8], start: u32, period: u32, copies: u32) -> Answer
    ensures { result ≡ plain (claim_answer read.now start period copies) }
{
    call_answers::claimed(call_claims::claim(read, start, period, copies))
}

// The part is named by its place: C takes it as the read's pointer and `from`.
#[unsafe(no_mangle)]
pub extern "C" fn sorunggyeo_motif(read: &[u8], start: u32, period: u32, copies: u32) -> Part
    ensures { result ≡ motif_part read.now start period copies }
{
    call_claims::motif_part(read, start, period, copies)
}

// The places of a primer.
#[unsafe(no_mangle)]
pub extern "C" fn sorunggyeo_find_primer(read: &[u8], primer: &[u8], places: &mut [u16]) -> Answer
    ensures { (result ≡ plain (find_answer read.now primer.now places.old))
        × (places.new ≡ find_leaves read.now primer.now places.old) }
{
    call_answers::counted(call_primers::find_primer(read, primer, places))
}

// The reverse complement of a primer.
#[unsafe(no_mangle)]
pub extern "C" fn sorunggyeo_reverse_complement(primer: &[u8], letters: &mut [u8]) -> Answer
    ensures { (result ≡ plain (turn_answer primer.now letters.old))
        × (letters.new ≡ turn_leaves primer.now letters.old) }
{
    call_answers::counted(call_primers::reverse_complement(primer, letters))
}

// The score of a read by a marker: its copies, and how many more than the reference they are.
#[unsafe(no_mangle)]
pub extern "C" fn sorunggyeo_score(
    read: &[u8],
    left: &[u8],
    right: &[u8],
    motif: &[u8],
    reference: u8,
) -> Answer
    ensures { result ≡ plain_score (score_answer read.now left.now right.now motif.now reference) }
{
    marker_answers::scored(marker_calls::score(read, left, right, motif, reference))
}

// The motif shown, named by its slice and its place.
#[unsafe(no_mangle)]
pub extern "C" fn sorunggyeo_shown(
    read: &[u8],
    house: &[u8],
    number: u32,
    left: &[u8],
    right: &[u8],
    motif: &[u8],
) -> ShownPart
    ensures { result ≡ shown_part motif.now (shown read.now house.now number left.now right.now motif.now) }
{
    marker_calls::shown_part(read, house, number, left, right, motif)
}

// One call of the log reader, on the log and the place reached.
#[unsafe(no_mangle)]
pub extern "C" fn sorunggyeo_next(log: &[u16], at: usize) -> Move
    ensures { result ≡ plain_move (reader_takes log.now at) }
{
    call_answers::taken(call_reader::take_at(log, at))
}

// The list, and the period index beside it.
#[unsafe(no_mangle)]
pub extern "C" fn sorunggyeo_list_index(
    read: &[u8],
    mode: u32,
    list: &mut [u16],
    index: &mut [u64],
) -> Answer
    ensures { (result ≡ plain (list_index_answer read.now mode list.old index.old))
        × (list.new ≡ list_index_leaves read.now mode list.old index.old)
        × (index.new ≡ list_index_beside read.now mode list.old index.old) }
{
    call_answers::list_indexed(call_list_indexes::list_index(read, mode, list, index))
}

// The period index of a list alone.
#[unsafe(no_mangle)]
pub extern "C" fn sorunggyeo_index(list: &[u16], index: &mut [u64]) -> Answer
    ensures { (result ≡ plain (index_answer list.now index.old))
        × (index.new ≡ index_leaves list.now index.old) }
{
    call_answers::counted(call_indexes::index(list, index))
}

// A period looked up.
#[unsafe(no_mangle)]
pub extern "C" fn sorunggyeo_lookup(index: &[u64], period: u64) -> Found
    ensures { result ≡ plain_looked (lookup_gives index.now period) }
{
    call_answers::looked(call_lookups::lookup(index, period))
}
