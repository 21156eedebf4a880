// No code: the history of a store and what replaying it gives.
#![tactic(auto)]
