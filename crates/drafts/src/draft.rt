//! Drafts: lists of which nothing is known, and the database that they make.

ghost use Rattle.std.specs.Prelude.{◌≡◌, ◌≢◌, IfOk, IfErr};
ghost use Rattle.mmsyntax.specs.Layout.{HasSpelling};
ghost use Rattle.drafts.specs.Drafts.{contents_of};
ghost use Rattle.drafts.specs.Limits.{IsTold};
ghost use Rattle.drafts.specs.declared.draft.Undeclared.TheVariants.{NoMemory};

use crate::limits::{Limit, passed_limit};
use crate::symbols::declare_prelude;
use crate::units::admit_all;
use mmsyntax::{Assertion, Database, Float, Label, Sequence};
use std::alloc::Global;
use std::hash::RandomState;

/// The lists of a database, of which nothing is known yet.
#[derive(Debug, Drop)]
pub struct Draft {
    /// The names of the constants, in order of declaration.
    pub constants: Sequence<Label>,
    /// The names of the variables, in order of declaration.
    pub variables: Sequence<Label>,
    /// The `$f` statements, in order.
    pub floats: Sequence<Float>,
    /// The assertions, in the order of the text.
    pub assertions: Sequence<Assertion>,
}

/// Why no text of the profile declares a draft.
#[derive(Clone, Copy, Debug, PartialEq, Eq)]
pub enum Undeclared {
    /// It passes a limit.
    Passes(Limit),
    /// It passes no limit, and breaks another rule: two names or labels are equal, a name or a label has a byte that it can't have, a
    /// symbol or a step names nothing, a label is `L.k` beside L, a variable has two `$f`, a `$d` isn't in order, ..
    Unlawful,
    /// Memory ran out.
    NoMemory,
}

/// The database of a draft, if some text of the profile declares it. `keys` make the hashes of the maps inside.
///
/// It takes about as many turns as the draft has bytes, symbols, pairs and steps.
///
/// # Errors
///
/// - `Passes`: the draft passes a limit, the first in the order of [`Limit`].
/// - `Unlawful`: it passes none, and breaks another rule.
/// - `NoMemory`: memory ran out, whatever the draft is.
pub fn declare(alloc: Global, keys: RandomState, draft: Draft) -> Result<Database, Undeclared>
    ensures made { IfOk result (λ db. db ≡ contents_of draft) }
    ensures refused { IfErr result (λ why. why ≢ NoMemory → (HasSpelling (contents_of draft) → ⊥)) }
    ensures told { IfErr result (λ why. IsTold (contents_of draft) why) }
{
    if let Some(limit) = passed_limit(&draft) {
        return Err(Undeclared::Passes(limit));
    }
    let prelude = declare_prelude(alloc, keys, &draft)?;
    let assertions = admit_all(alloc, &prelude, draft.assertions)?;
    Ok(Database::new(prelude, assertions))
}
