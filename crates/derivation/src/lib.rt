// Derivations of a context-free grammar: the definitions are in specs/, the theory in proofs/.
#![tactic(auto)]
