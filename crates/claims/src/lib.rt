// Theorems over every list of calls. There is no code here: the definitions are in specs/, the proofs in proofs/Laws.

#![tactic(auto)]
