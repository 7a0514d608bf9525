// What the keeper promises as a whole: no code, only theorems about the calls.
#![tactic(auto)]
