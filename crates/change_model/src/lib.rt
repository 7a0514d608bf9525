// What a change comes to, from rows alone: definitions and laws, no code.
#![tactic(auto)]
