// Theorems: what instructions cost and mark, and what entries leave alone, in other words than the definitions.
#![tactic(auto)]
