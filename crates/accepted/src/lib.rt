// Nothing runs here. proofs/Accepted.antt has what is true of every table file that is accepted: its table is sound, and
// it is at most 33,782 bytes long; proofs/Prefix.antt, that a file's first 40,000 bytes decide; proofs/Alike.antt, that two
// sound tables that behave alike are equal.
#![tactic(auto)]
