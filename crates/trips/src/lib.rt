// The round trips of request E2, and no code: the statements are in specs/, their proofs in proofs/.

#![tactic(auto)]
