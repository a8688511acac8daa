// Where the repeats of a period start: the places that have it as their distance at its width. There is no code here: specs/ has what is known of an array of
// distances, proofs/ how it tells the starts of a read.
#![tactic(auto)]
