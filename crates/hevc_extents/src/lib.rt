// What both extents of a block say of every block that is read: laws alone, in specs.
#![tactic(auto)]
