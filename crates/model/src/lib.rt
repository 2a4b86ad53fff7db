// The definitions of document 01 and their theorems; open proofs/Theorems.antt first. There is no code here.
#![tactic(auto)]
