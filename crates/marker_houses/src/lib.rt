// The house list: text with one motif a line, split at newlines, lines counted from 0. `house_place` promises where it has a marker, if it has it. It goes over the text once, and not
// past its end, whatever the number.
#![tactic(auto)]

ghost use Rattle.std.specs.Prelude.{◌≡◌, ◌≤◌, length};
ghost use Rattle.std.specs.Option.{IfSome};
ghost use Rattle.words_markers.specs.Houses.{line_end};
ghost use Rattle.marker_houses.specs.Found.{line_found, house_place};

use marker_bytes::same_bytes;

// where the line that starts at a place ends: at the first newline from there on, or at the end of the text
fn line_end(house: &[u8], from: usize) -> usize
    requires { from ≤ length house.now }
    ensures { (result ≡ line_end house.now from) × (from ≤ result) × (result ≤ length house.now) }
{
    let rest = &house[from..];
    from + rest.iter().position(|b| *b == b'\n').unwrap_or(rest.len())
}

// where the line of a number starts, counted from 0, if there is one: a text that has ended has no line more
fn line_from(house: &[u8], number: u32) -> Option<usize>
    ensures { (result ≡ line_found house.now number) × IfSome result (λ at. at ≤ length house.now) }
{
    let mut at = 0;
    for _ in 0..number {
        let end = line_end(house, at);
        if end == house.len() {
            return None;
        }
        at = end + 1;
    }
    Some(at)
}

// where the house list has the marker, counted from 0, if it has it: at the line of its number, if that is the motif
pub fn house_place(house: &[u8], number: u32, motif: &[u8]) -> Option<usize>
    ensures { result ≡ house_place house.now number motif.now }
{
    let at = line_from(house, number)?;
    let end = line_end(house, at);
    same_bytes(&house[at..end], motif).then_some(at)
}
