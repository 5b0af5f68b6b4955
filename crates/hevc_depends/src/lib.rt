// What a block and a tray of blocks depend on (document 02, request (xii)): definitions and laws alone, in specs/.
#![tactic(auto)]
