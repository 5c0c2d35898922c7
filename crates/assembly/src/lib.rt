// Theorems on the assembler: what assembles decodes to what was written, and which refusal a text gets.
#![tactic(auto)]
