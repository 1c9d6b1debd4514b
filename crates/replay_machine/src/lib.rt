// The language as an abstract machine runs it: frames and an environment for each open call in the place of substitution. Definitions and theorems only.
#![tactic(auto)]
