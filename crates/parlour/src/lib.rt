// Every list of calls from a fresh parlour: a theorem about the contracts of `head`, with no code of its own.

#![tactic(auto)]
