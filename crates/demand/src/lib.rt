// Demand 3: what every list of calls to a ledger comes to. Definitions and the theorem, no code.

#![tactic(auto)]
