// Balanced tables (document 02, §3): definitions in specs/, theorems in proofs/; there is no code here.
#![tactic(auto)]
