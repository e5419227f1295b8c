// No code: the history and the three demands are statements in specs/, proved in proofs/.
#![tactic(auto)]
