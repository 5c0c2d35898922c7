// Theorems on the assembler, in the words of the written form: what assembles decodes to what was written, and which refusal a text gets.
#![tactic(auto)]
