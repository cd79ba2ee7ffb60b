// What happened before what, and whose news of whom is the newest. A theory: it has definitions and theorems, and no code.
#![tactic(auto)]
