// Theorems: a listing assembles to the bytes that it lists.
#![tactic(auto)]
