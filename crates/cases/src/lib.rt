// Nothing runs here. The paper's cases P1 to P10 stand in specs/Paper.antt as one list, and proofs/Held.antt
// proves that each of them holds, by computing the definitions.
#![tactic(auto)]
