// How much a caller has to lend at most: for the text of a reading, and for the buffers of a call. Theorems about the definitions, with no function.

#![tactic(auto)]
