// Words and numbers put into a buffer as text. Each function puts one piece of text at a place of the buffer and answers the place after
// it; all other bytes stay as they were. What the texts say is for the crates above.
#![tactic(auto)]

ghost use Rattle.std.specs.Prelude.{◌≡◌, ◌<◌, length};
ghost use Rattle.text_puts.specs.Numbers.{number_text, cell_text, numbers_text, ending as after};
ghost use Rattle.text_puts.specs.Puts.{Room, Puts};

// a word
pub fn put_word(buf: &mut [u8], at: usize, word: &[u8]) -> usize
    requires { Room buf.old at word.now }
    ensures { Puts buf.old at word.now buf.new result }
{
    let end = at + word.len();
    buf[at..end].copy_from_slice(word);
    end
}

// a number and the byte after it
pub fn put_number(buf: &mut [u8], at: usize, n: u64, last: u8) -> usize
    requires { Room buf.old at (number_text n last) }
    ensures { Puts buf.old at (number_text n last) buf.new result }
{
    let mut text = [0u8; 20];
    let k = io::decimal(n, &mut text);
    let next = put_word(buf, at, &text[..k]);
    buf[next] = last;
    next + 1
}

// the byte after number i of a row
fn ending(row: &[u16], i: usize) -> u8
    requires { i < length row.now }
    ensures { result ≡ after row.now i }
{
    if i + 1 == row.len() { b'\n' } else { b' ' }
}

// number i of a row, and the byte after it
fn put_cell(buf: &mut [u8], at: usize, row: &[u16], i: usize) -> usize
    requires { (i < length row.now) × Room buf.old at (cell_text row.now i) }
    ensures { Puts buf.old at (cell_text row.now i) buf.new result }
{
    put_number(buf, at, row[i] as u64, ending(row, i))
}

// the numbers of a row
pub fn put_numbers(buf: &mut [u8], at: usize, row: &[u16]) -> usize
    requires { Room buf.old at (numbers_text row.now) }
    ensures { Puts buf.old at (numbers_text row.now) buf.new result }
{
    let mut next = at;
    for i in 0..row.len() {
        next = put_cell(buf, next, row, i);
    }
    next
}
