// The round trips of whole sheets: no code, only laws.
#![tactic(auto)]
