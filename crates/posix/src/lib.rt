// The theory of POSIX readings: definitions in specs/, theorems in proofs/. No code.
#![tactic(auto)]
