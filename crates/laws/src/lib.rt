// Mathematics alone: definitions in specs/, their laws in proofs/. No code, and no word of the format.
#![tactic(auto)]
