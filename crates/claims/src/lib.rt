// The promises of the whole are theorems: proofs/Claims.antt has them on one page. There is no code.
#![tactic(auto)]
