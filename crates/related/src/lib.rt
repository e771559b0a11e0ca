// Two readings of one function, and of a text with one function replaced: theorems alone, in specs/ and proofs/.
#![tactic(auto)]
