// What is claimed of the calls of a session, one after the other: definitions and laws about `session`, and no code.
#![tactic(auto)]
