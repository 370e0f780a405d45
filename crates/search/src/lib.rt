// The search for the lightest formula, as definitions over stored places: candidates in build order, the level, the building of
// a level, the steps that a found formula uses. The code that does it is proved against these.

#![tactic(auto)]
