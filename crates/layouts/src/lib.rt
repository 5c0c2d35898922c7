// The theorem that both layouts of memory's marks are the same marks. It has no code.
#![tactic(auto)]
