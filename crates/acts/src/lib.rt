// Definitions and laws alone: what each call does, in specs/.
#![tactic(auto)]
