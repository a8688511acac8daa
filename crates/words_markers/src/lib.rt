// The words of document 02, item 7, "Marker scoring, a crate above", and the theory over them. There is no code here: specs/ has the definitions, proofs/ the laws and
// theorems, and this file what the calls answer with beside numbers. What each case says in the document's numbers stands in specs/Calls.antt.
#![tactic(auto)]

// The positions between the primers, from `from` to before `to`.
#[derive(Clone, Copy, Debug, PartialEq, Eq)]
pub struct Seats {
    pub from: usize,
    pub to: usize,
}

// What `score` answers: the copies and their signed difference from the reference.
#[derive(Clone, Copy, Debug, PartialEq, Eq)]
pub struct Scored {
    pub copies: usize,
    pub difference: i32,
}

// Of which slice the motif shown is a part, and at which place of it, counted from 0, the part starts.
#[derive(Clone, Copy, Debug, PartialEq, Eq)]
pub enum Shown {
    House(usize),
    Read(usize),
}
