// What the program that runs the calls prints: the numbers of slices, and answers in the documents' numbers; and a read of every byte.
#![tactic(auto)]

ghost use Rattle.std.specs.Prelude.{◌≡◌, ℕ, ◌<◌, slice_index_or};

use call_answers::Answer;
use std::fmt::Display;

// the numbers of a slice
pub fn slice<T: Display>(rt: &impl Print, numbers: &[T]) {
    let _ = print!(rt; "slice");
    for x in numbers {
        let _ = print!(rt; " {x}");
    }
    let _ = println!(rt; "");
}

// an answer in the documents' numbers
pub fn answer(rt: &impl Print, a: Answer) {
    let _ = println!(rt; "answer {} {}", a.number, a.value);
}

// the same where a success returns two values
pub fn answer_both(rt: &impl Print, a: Answer) {
    let _ = println!(rt; "answer {} {} {}", a.number, a.value, a.more);
}

// a call that writes into a slice: the slice before, the answer, the slice after
pub fn shown<T: Display, F: FnOnce(&mut [T]) -> Answer>(
    rt: &impl Print,
    name: &str,
    out: &mut [T],
    call: F,
)
    requires { F.IsAlwaysCallable call }
{
    let _ = println!(rt; "{name}");
    slice(rt, out);
    answer(rt, call(out));
    slice(rt, out)
}

// every byte there is
pub fn every_byte() -> [u8; 256]
    ensures { (k : ℕ) → k < 256 → slice_index_or result k 0 ≡ k }
{
    let mut read = [0; 256];
    for k in 0..256 {
        read[k] = k as u8;
    }
    read
}
