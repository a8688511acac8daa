// What a queue of positions that move makes of a table of groups. There is no code here: specs/ has the definitions that the contracts of
// a step's phases cite, and proofs/ has the laws over them. A table t has the name of each position's group; Q has the positions that move.
#![tactic(auto)]
