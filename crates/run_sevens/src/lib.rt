// One call of each kind of document 01, on a slice of so many sevens: the slice before, the answer in the documents' numbers, the slice after. A number
// written past the front, or a slice zeroed by mistake, is seen.
#![tactic(auto)]

ghost use Rattle.std.specs.Prelude.{◌≤◌};

use call_answers::counted;
use lister::{group_table, list, log, replay};
use run_prints::shown;

// `list` on so many sevens; the room stays a number, since with a const parameter no proof was found
pub fn list_in(rt: &impl Print, read: &[u8], mode: u32, room: usize)
    requires { room ≤ 14 }
{
    let out = &mut [7; 14][..room];
    shown(rt, "list", out, |out| counted(list(read, mode, out)))
}

// `group_table`
pub fn table_in(rt: &impl Print, read: &[u8], width: u32, room: usize)
    requires { room ≤ 257 }
{
    let out = &mut [7; 257][..room];
    shown(
        rt,
        "table",
        out,
        |out| counted(group_table(read, width, out)),
    )
}

// `log`
pub fn log_in(rt: &impl Print, read: &[u8], room: usize)
    requires { room ≤ 6885 }
{
    let out = &mut [7; 6885][..room];
    shown(rt, "log", out, |out| counted(log(read, out)))
}

// `replay`
pub fn replay_in(rt: &impl Print, read: &[u8], log: &[u16], width: u32, room: usize)
    requires { room ≤ 9 }
{
    let out = &mut [7; 9][..room];
    shown(
        rt,
        "replay",
        out,
        |out| counted(replay(read, log, width, out)),
    )
}
