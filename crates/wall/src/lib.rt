// The wall panels of a parlour: theorems about its lists and the calls `wilbryn_panel` and `wilbryn_packed_panel`, with no code of its own.

#![tactic(auto)]
