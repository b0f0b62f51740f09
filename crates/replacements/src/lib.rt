//! Has the proof of a theorem of a library in cells cite one assertion in place of another.
#![tactic(auto)]

mod replacing;

pub use replacing::replace;
