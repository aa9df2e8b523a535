// Texts: bytes at a place, runs and the numbers that digits spell, which luck writes with get, take_while and parse; long runs by blocks.
#![tactic(auto)]

pub mod blocks;
pub mod scan;
