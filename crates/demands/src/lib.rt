// The three demands of the mission: one file of statements in specs/, their proofs in proofs/. No code.
#![tactic(auto)]
