// Definitions and theorems alone: runs of a program, and that every run is covered by the table.
#![tactic(auto)]
