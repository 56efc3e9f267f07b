// General facts only: definitions in specs/, laws in proofs/. No code, and no word of this project.
#![tactic(auto)]
