// Texts collected in a buffer, and written out in large pieces. Each function says what became of all the text that was made: what write calls took
// (`text_pipes`) and what is collected behind it, or how far it came before a write failed.
#![tactic(auto)]

ghost use Rattle.std.specs.Prelude.{◌≡◌, ◌≤◌, [], length};
ghost use Rattle.text_outs.specs.Outputs.{next_place, Adds};

use text_pipes::Pipes;

// what is collected: `used` bytes of the output buffer; `ok` is false once a write failed
#[derive(Clone, Copy)]
pub struct Out {
    pub used: usize,
    pub ok: bool,
}

// writes out what is collected; a failed write is told, and after it nothing is written
pub fn flush(pipes: Pipes, buf: &[u8], o: Out) -> Out
    requires { o.used ≤ length buf.now }
    ensures { (result.used ≡ 0) × Adds buf.now o [] buf.now result }
{
    if !o.ok {
        return Out { used: 0, ok: false };
    }
    let ok = match text_pipes::hand(pipes, &buf[..o.used]) {
        Ok(()) => true,
        Err(left) => {
            text_pipes::tell_unwritten(pipes, o.used, left);
            false
        }
    };
    Out { used: 0, ok }
}

// makes room for a text of at most `need` bytes: where it does not fit behind what is collected, that is written out
pub fn room(pipes: Pipes, buf: &[u8], need: usize, o: Out) -> Out
    requires { o.used ≤ length buf.now }
    ensures { (result.used ≡ next_place need (length buf.now) o.used) × Adds buf.now o [] buf.now result }
{
    if need <= buf.len() - o.used {
        return o;
    }
    flush(pipes, buf, o)
}
