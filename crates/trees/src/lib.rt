// Laws of every tree of bins, whatever syntax it is: a crate of laws only, in specs.
#![tactic(auto)]
