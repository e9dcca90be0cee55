// What holds of both directions of a trace as text together: definitions and laws alone.

#![tactic(auto)]
