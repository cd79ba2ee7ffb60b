// Bounded names for meetings: labels that are used again, and why two meetings never pass for one. A theory: it has definitions and theorems, and no code.

#![tactic(auto)]
