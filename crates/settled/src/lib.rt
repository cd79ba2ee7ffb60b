// What heads know others to have heard: theorems about the lists of `parlour` and the call `wilbryn_settled`, with no code of its own.

#![tactic(auto)]
