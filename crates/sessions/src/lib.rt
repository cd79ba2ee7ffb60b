// What every session of lines is answered, from the lines alone: a theorem about the contracts of `line`, with no code of its own.

#![tactic(auto)]
