// No code: what bench scripts print and what a rescue keeps, as statements in specs/, proved in proofs/.
#![tactic(auto)]
