// A text with one function replaced (demand 3): definitions in specs/, theorems in proofs/. There is no code here.
#![tactic(auto)]
