// No code: the paper's numbers as tables of rows in specs/, proved in proofs/.
#![tactic(auto)]
