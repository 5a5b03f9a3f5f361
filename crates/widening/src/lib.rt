// Widening and the blocks a mode reaches (demand 3), and no code: definitions and statements are in specs/, proofs in proofs/.

#![tactic(auto)]
