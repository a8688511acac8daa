// The bytes of a read as the bench shows them: each stands for itself, or for a backslash, x and two digits, so that no terminal obeys one.
// Each function promises its text byte by byte, the place after it, and that the rest of the buffer is as it was.
#![tactic(auto)]

ghost use Rattle.std.specs.Prelude.{◌≡◌};
ghost use Rattle.text_puts.specs.Puts.{Room, Puts};
ghost use Rattle.text_bytes.specs.Bytes.{plain_byte, digits_text, byte_text, bytes_text};

use text_puts::put_word;

// can a byte stand for itself?
#[tactic(auto, unfolding(crate::specs::Bytes::plain_byte, words::specs::Logs::within))]
fn is_plain(b: u8) -> bool
    ensures { result ≡ plain_byte b }
{
    (33..=126).contains(&b) && b != b'\\'
}

// a byte in the form of its two digits
fn put_digits(buf: &mut [u8], at: usize, b: u8) -> usize
    requires { Room buf.old at (digits_text b) }
    ensures { Puts buf.old at (digits_text b) buf.new result }
{
    let mut text = [0u8; 16];
    let k = io::hex(b as u64, 2, &mut text);
    let next = put_word(buf, at, b"\\x");
    put_word(buf, next, &text[..k])
}

// a byte of a read
fn put_byte(buf: &mut [u8], at: usize, b: u8) -> usize
    requires { Room buf.old at (byte_text b) }
    ensures { Puts buf.old at (byte_text b) buf.new result }
{
    if is_plain(b) {
        buf[at] = b;
        return at + 1;
    }
    put_digits(buf, at, b)
}

// the bytes of a read
pub fn put_bytes(buf: &mut [u8], at: usize, read: &[u8]) -> usize
    requires { Room buf.old at (bytes_text read.now) }
    ensures { Puts buf.old at (bytes_text read.now) buf.new result }
{
    let mut next = at;
    for b in read {
        next = put_byte(buf, next, *b);
    }
    next
}
