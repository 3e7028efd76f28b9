#![tactic(auto)]

// Tables with the alternatives of Or records exchanged: definitions in specs/, theorems in proofs/. No code.
