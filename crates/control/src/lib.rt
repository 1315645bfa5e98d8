// The error theorem: how rarely idle offers are rejected. Definitions of its statements are in specs/, its proofs in proofs/; there is no code.
#![tactic(auto)]
