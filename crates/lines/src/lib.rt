// Document 01's sixteen lines: definitions and one theorem, in specs/ and proofs/. Nothing runs here.
#![tactic(auto)]
