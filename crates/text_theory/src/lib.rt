// Texts as they are written, and that they read back: no code, only definitions and theorems. `writer` has the code.
#![tactic(auto)]
