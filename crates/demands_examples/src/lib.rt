// No code: document 01's marked examples as one table of cases, computed over the definitions that the calls' contracts cite.
#![tactic(auto)]
