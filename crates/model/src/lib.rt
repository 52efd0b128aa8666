// The definitions of document 01 (specs/) and the laws about them (proofs/). There is no code here:
// the crates above cite these definitions in their contracts and these laws in their proofs.

#![tactic(auto)]
