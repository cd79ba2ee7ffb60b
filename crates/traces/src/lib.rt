// Lists of calls that differ in the naming or the order of their items: theorems about the lists of `parlour`, with no code of its own.

#![tactic(auto)]
