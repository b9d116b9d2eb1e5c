// How tight the contracts are, over the definitions that they cite. Specifications alone: nothing here runs.
#![tactic(auto)]
