// Nothing runs here. specs/Law.antt has what the third demand says of a state and a log; specs/Runs.antt, a line from
// Fresh through any deliveries; specs/Contents.antt, what channels, lists and logs hold; specs/Tokens.antt, the messages
// of a gate's negotiation.
#![tactic(auto)]
