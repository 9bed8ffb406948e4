// Request 8 of document 02: what PAMR and the hole do not change. There is no code here: specs/ states it over gmch's
// definitions, and proofs/ shows it.

#![tactic(auto)]
