// No code: what is proved of the Measurement feature's definitions; statements in specs/, proved in proofs/.
#![tactic(auto)]
