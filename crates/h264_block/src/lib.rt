// H.264's 4x4 block: in specs its definitions and laws, here what its readers and writers share.
#![tactic(auto)]
