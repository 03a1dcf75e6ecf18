// The sample sheet of document 01, and samples of the requests: specs/Sheet.antt lists the lines, proofs/Samples.antt proves that each holds.
#![tactic(auto)]
