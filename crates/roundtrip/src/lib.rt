// Reading and writing undo each other: open specs/Theorems.antt. No code.
#![tactic(auto)]
