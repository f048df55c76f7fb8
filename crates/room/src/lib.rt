// Nothing runs here. proofs/Room.antt has that what program desk prints is at most 200 bytes long, and 20 more for each
// byte of the log, so that a buffer of that room holds all of it; proofs/Courses.antt, what holds along its deliveries.
#![tactic(auto)]
