// That the bin writer and the bin reader fit one another: a crate of laws only, in specs.
#![tactic(auto)]
