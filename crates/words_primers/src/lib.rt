// The words of document 02, item 6, "Primer search", and the theory over them. There is no code here: specs/ has the definitions, and proofs/ the laws and theorems.
#![tactic(auto)]
