// The document's starred examples: the table and its claim are in specs/, its proof in proofs/.
#![tactic(auto)]
