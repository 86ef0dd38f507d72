// What document 01 says of a tile, in its own words: definitions in specs/, and in proofs/ that the check and the walk of `tile` say the
// same. No code.
#![tactic(auto)]
