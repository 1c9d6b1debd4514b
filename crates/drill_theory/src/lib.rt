// Practice pairs: the draw of a seed, the pair of k readers as two texts, and why every pair is accepted. Nothing here runs: see specs/ and proofs/.
#![tactic(auto)]
