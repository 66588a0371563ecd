// No code: the three demands, each on a page of specs/, and in proofs/ that the functions meet them.
#![tactic(auto)]
