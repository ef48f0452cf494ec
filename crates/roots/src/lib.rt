// The arithmetic of roots and rounding, for every 64-bit input. Other crates know it by its contracts and by the laws in proofs/.
#![tactic(auto)]

pub mod limits;
pub mod rounding;
