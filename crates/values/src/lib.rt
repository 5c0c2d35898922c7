// Theorems: what each instruction makes of values and control part, in numbers and bits.
#![tactic(auto)]
