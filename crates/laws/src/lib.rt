// Nothing runs here. The crate has the definitions by which contracts speak of loops (specs/) and
// the laws of them, of tests and of stores that every proof above leans on (proofs/).
#![tactic(auto)]
