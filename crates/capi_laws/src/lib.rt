// No code: C's flat forms and the kernel's are each other's inverse, and a refused read leaves what it was lent.
#![tactic(auto)]
