// What the core guarantees over every list of calls: see specs/Guarantees.antt for the statements, proofs/ for their proofs.
#![tactic(auto)]
