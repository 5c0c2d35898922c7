// Theorems on a listing's text alone: its bits give back the bytes, its lines cover the range, a line says one instruction.
#![tactic(auto)]
