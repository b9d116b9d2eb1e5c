// Demand 3 over the rules of the ledger. Specifications alone: nothing here runs.
#![tactic(auto)]
