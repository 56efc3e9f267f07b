// What the project stands for, on one page: statements in specs/, each named by its theorem in proofs/. No code.
#![tactic(auto)]
