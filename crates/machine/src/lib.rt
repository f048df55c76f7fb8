// Nothing runs here. specs/Machine.antt defines the simple machine; proofs/Runs.antt has what makes a vector enabled
// and what one more entry does to a log.
#![tactic(auto)]
