// The struct of include/luck.h that no crate below has: the answer of decoding.
#![tactic(auto)]

pub mod decoded;
