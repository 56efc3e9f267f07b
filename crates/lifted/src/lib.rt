// The demand of the unit as C sees it, and a run as the calls of its records: definitions and theorems. No code.
#![tactic(auto)]
