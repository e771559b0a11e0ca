// Texts that are joined of parts: the theorems stand in proofs/, the definitions that they are about in specs/.
#![tactic(auto)]
