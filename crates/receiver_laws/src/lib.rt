// No code: for every cutting of a stream the frames are those of the uncut stream; statements in specs/, proved in proofs/.
#![tactic(auto)]
