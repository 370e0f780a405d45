// What is promised of every list of calls to a finder, as definitions; there is no code here.

#![tactic(auto)]
