// Theorems about document 01's definitions, and no code: the statements are in specs/, their proofs in proofs/.

#![tactic(auto)]
