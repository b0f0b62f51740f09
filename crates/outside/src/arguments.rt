//! The words of a command line.

use crate::trouble::{Trouble, trouble_of};
use std::alloc::Global;
use std::env;
use std::rt::Env;

/// Where the words of a command line come from.
pub trait Arguments {
    ghost use Rattle.std.specs.Prelude.{ℕ, List, Result, map, string_bytes};
    ghost use Rattle.std.specs.Result.{result_map_both};
    ghost use Rattle.outside.specs.declared.trouble.Trouble.{Trouble as TroubleOfWords};

    /// Whether these are the words, or this is why they are not read, as far as that is known.
    ghost tells: { Self → Result (List (List ℕ)) TroubleOfWords → Type 0 } = { λ _ _. Unit {0} };

    /// The words, of which the first is the program's name.
    ///
    /// # Errors
    ///
    /// They can't be read, or there is no memory for them.
    fn words(&self, alloc: Global) -> Result<Vec<String>, Trouble>
        ensures { tells self.now (result_map_both (λ ws. map string_bytes ws.items) (λ why. why) result) };
}

/// The words that a runtime has, of which nothing is known.
#[derive(Drop)]
pub struct SystemArguments<'r, R> {
    /// The runtime that has them.
    pub rt: &'r R,
}

impl<R: Env + AllocGlobal> Arguments for SystemArguments<'_, R> {
    fn words(&self, alloc: Global) -> Result<Vec<String>, Trouble> {
        match env::args(self.rt) {
            Ok(args) => args.collect(alloc).map_err(|_| Trouble::NoMemory),
            Err(error) => Err(trouble_of(&error)),
        }
    }
}
