// Theorems alone: the customer's three demands in document 01's words, the starred samples, and the wrong programs that are shut out.
#![tactic(auto)]
