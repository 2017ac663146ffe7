// No code: document 01's table of proved cases, of the module and of its model (specs/, proofs/).
#![tactic(auto)]
