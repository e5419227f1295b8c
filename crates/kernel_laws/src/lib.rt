// No code: laws over the calls of the kernel, each in a file of specs/ and proved in proofs/: calls and commands, responses,
// frames in scraps, two zones in one second, the two planners, ticks.
#![tactic(auto)]
