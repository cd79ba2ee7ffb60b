// Lists of calls on packed tables. The crate has theorems and no code.

#![tactic(auto)]
