// The wrong models of document 01, and what shuts them out: definitions and theorems. Nothing runs here.
#![tactic(auto)]
