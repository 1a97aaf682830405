// Theorems alone: a text that is read and written again, and a program that is written and read again, are as they were.
#![tactic(auto)]
