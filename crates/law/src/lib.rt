// Nothing runs here. proofs/Law.antt has the third demand: what line/specs/Law.antt says holds of every state that a line
// reaches, for every table file that is accepted, every log and all deliveries; proofs/Instance.antt has the run of the
// paper's table E as one of these.
#![tactic(auto)]
