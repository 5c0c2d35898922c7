// Theorems: what a step and a run do, sentence by sentence, in other words than the definitions.
#![tactic(auto)]
