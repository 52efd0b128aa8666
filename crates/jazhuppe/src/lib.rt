// The finder as a C host sees it.
#![tactic(auto)]

pub mod exports;
