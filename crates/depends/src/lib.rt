// What a run of any syntax depends on (document 02, request (xii)): laws alone, in specs/.
#![tactic(auto)]
