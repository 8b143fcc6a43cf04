// Theorems over lists of calls through a lent block. There is no code here: the definitions are in specs/, the proofs in proofs/Laws.

#![tactic(auto)]
