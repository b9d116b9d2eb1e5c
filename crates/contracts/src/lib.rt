// What a contract says, of any function. Specifications alone: nothing here runs.
#![tactic(auto)]
