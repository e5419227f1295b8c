// No code: what is written reads back, and what is read writes again; statements in specs/, proved in proofs/.
#![tactic(auto)]
