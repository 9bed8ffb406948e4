// Request 9 of document 02: what the lock guarantees of the translation table. There is no code here: specs/ states it over
// gmch's definitions, and proofs/ shows it.

#![tactic(auto)]
