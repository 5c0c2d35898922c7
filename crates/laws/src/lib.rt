// Theorems on the machine's definitions alone: refusals and stops, states in form, cut runs, the trace.
#![tactic(auto)]
