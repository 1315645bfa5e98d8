// Sets of columns: definitions in specs/, laws in proofs/. No code.
#![tactic(auto)]
