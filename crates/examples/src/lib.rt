// Document 01's examples P1 to P11: one table in specs/, one statement over it in proofs/. No code.
#![tactic(auto)]
