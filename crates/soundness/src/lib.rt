// Demand 3 of two texts: what the definitions of document 01 accept is safe in the calculus. Definitions and theorems only.
#![tactic(auto)]
