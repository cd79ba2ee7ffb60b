// The worked meetings of the scope document that are marked to be proved: one table, and one proof over it.

#![tactic(auto)]
