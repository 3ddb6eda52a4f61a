// The plain ledger of document 01: definitions and theorems, no code.

#![tactic(auto)]
