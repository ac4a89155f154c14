// The user's three demands: the statements are in specs/, the theorems in proofs/.
#![tactic(auto)]
