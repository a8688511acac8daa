// The words of document 02, item 4, "The claim check tells us the truth it found", and the theory over them. There is no code here: specs/ has the definitions, proofs/ the
// laws and theorems, and this file the kind of answer that the call gives. What each case says in numbers stands in specs/Calls.antt.
#![tactic(auto)]

// What `claim` finds of a read that is not too long: yes; no, so many copies stand there; no, the motif is a shorter one of this length repeated; no, outside the read.
#[derive(Clone, Copy, Debug, PartialEq, Eq)]
pub enum Verdict {
    Yes,
    Copies(usize),
    Shorter(usize),
    Outside,
}
