// Definitions and laws without code: parts of a list, tests of indices, and the isolation of compartments.

#![tactic(auto)]
