// Nothing runs here. proofs/ has that a delivery, as crates delivery and fresh define it, is a delivery of the protocol.
#![tactic(auto)]
