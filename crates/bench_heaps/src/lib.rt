// No code: the bench heaps P1 to P10, proved together as a single table.
#![tactic(auto)]
