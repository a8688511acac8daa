// The bits of a number, lowest first: what a bit of an and, of an or, of a power and of twice a number is. There is no code here: specs/ has the
// definitions that contracts cite, and proofs/ has the laws over them.
#![tactic(auto)]
