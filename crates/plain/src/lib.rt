// The machine without marks is a definition; nothing runs here.
#![tactic(auto)]
