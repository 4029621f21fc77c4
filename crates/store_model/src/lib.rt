//! The definitions of what Warnoelt promises, in `specs/`. There is no code here.
#![tactic(auto)]
