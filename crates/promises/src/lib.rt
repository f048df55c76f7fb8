// Nothing runs here. proofs/NoOther.antt has that no other answer keeps a promise of the interface; proofs/Desks.antt, that
// none of the wrong desks which the paper names keeps the promise of a delivery.
#![tactic(auto)]
