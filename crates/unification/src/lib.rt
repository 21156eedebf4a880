// What unification is, on words and on states, and what its answers mean: definitions and laws in specs/, and no code.
#![tactic(auto)]
