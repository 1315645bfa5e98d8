// The method at e: k-max, critical values, the put-back value, counts, who set a critical value. Definitions in specs/, laws in proofs/. No code.
#![tactic(auto)]
