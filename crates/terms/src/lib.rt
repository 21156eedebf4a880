// What the cells of a store mean as terms: definitions and laws in specs/, and no code.
#![tactic(auto)]
