// The words of document 02, item 3, "Runs with the partial copy", and the theory over them. There is no code here: specs/ has the definitions, in source document
// 004's words, and proofs/ the laws and theorems.
#![tactic(auto)]
