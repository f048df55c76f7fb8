// Nothing runs here. proofs/Kept.antt has that a delivery which is done keeps table, state and log sound; proofs/Ends.antt,
// that one which is refused changes nothing; proofs/Log.antt, that only the bytes of the entries written change;
// proofs/Entries.antt, that those name gates below 16 and vectors below 8; proofs/Fresh.antt, that the fresh state of a
// sound table is sound.
#![tactic(auto)]
