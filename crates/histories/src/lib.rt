// No code: runs of the public calls with their work buffer, and what replaying them gives.
#![tactic(auto)]
