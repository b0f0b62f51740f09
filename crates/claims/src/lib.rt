//! Numbers from 0 up to a count, each of which is claimed once, by whichever of several threads asks next.
//!
//! A claim is one fetch-and-add on a word that the claimants share. Nobody waits for another.
//!
//! Two numbers are claimed by one claimant:
//!
//! ```
//! fn claim_both(alloc: Global) -> Result<usize, AllocError> {
//!     let (numbers, mut claimants) = Numbers::open(alloc, 2, 1)?;
//!     let mut count = 0;
//!     for claimant in claimants.iter_mut() {
//!         for _ in 0..2 {
//!             if claimant.claim(&numbers).is_some() {
//!                 count += 1;
//!             }
//!         }
//!     }
//!     Ok(count)
//! }
//! ```
#![tactic(auto)]

mod claimant;
mod closing;
mod numbers;
mod opening;
mod plays;
mod rule;
mod view;

pub use claimant::Claimant;
pub use numbers::Numbers;
