// Definitions and theorems; nothing runs here.
#![tactic(auto)]
