// Sets of places from 1 to 1,000, as bits of 64-bit words, lowest first, with a last word that says which of the others have any: a place is put in,
// and the least is taken out, in constant time. `flags` has a set as 1,000 numbers, 1 for each place that is in it, and each contract speaks
// of these.
#![tactic(auto)]

ghost use Rattle.std.specs.Prelude.{◌≡◌, ◌≤◌};
ghost use Rattle.slots.specs.Slots.{put};
ghost use Rattle.step2_bits.specs.Sets.{flags, Sound, Sound-prop, Empty, LeastTaken};

// a set of places
#[derive(Clone, Copy)]
pub struct Places {
    pub words: [u64; 17],
    pub ghost sound: { Sound words } by { Sound-prop words },
}

impl Places {
    // the set that has no place
    pub fn none() -> Places
        ensures { Empty (flags result.words) }
    {
        Places { words: [0; 17] }
    }

    // s is put in
    pub fn mark(&mut self, s: u16)
        requires { (1 ≤ s) × (s ≤ 1000) }
        ensures { flags self.new.words ≡ put (flags self.old.words) s 1 }
    {
        let k = (s as usize) - 1;
        let b = k / 64;
        self.words[b] |= 1 << (k % 64);
        self.words[16] |= 1 << b;
    }

    // the least is taken out and returned, if there is one
    pub fn take_least(&mut self) -> Option<u16>
        ensures { LeastTaken (flags self.old.words) result (flags self.new.words) }
    {
        let words = self.words[16];
        if words == 0 {
            return None;
        }
        let b = words.trailing_zeros();
        let at = b as usize;
        let word = self.words[at];
        let z = word.trailing_zeros();
        let left = word & (word - 1);
        self.words[at] = left;
        let last = left == 0;
        if last {
            self.words[16] = words & (words - 1);
        }
        Some((64 * b + z + 1) as u16)
    }
}
