// What playing a bench recording guarantees: see specs/Playback.antt for the statements, proofs/ for their proofs.
#![tactic(auto)]
