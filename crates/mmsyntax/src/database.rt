//! A database: a prelude, and the assertions of a text.

ghost use Rattle.std.specs.Prelude.{◌≡◌, IfOk};
ghost use Rattle.mmsyntax.specs.Layout.{HasSpelling};

use crate::prelude::Prelude;
use crate::sequence::Sequence;
use crate::statement::Assertion;
use std::alloc::{AllocError, Global};
use std::marker::Model;

/// A prelude, and the assertions in the order of the text.
///
/// A database always has a spelling: it is what some text declares.
pub struct Database {
    prelude: Prelude,
    assertions: Sequence<Assertion>,
}

impl Model for Database {
    ghost use Rattle.mmsyntax.specs.Tables.{Contents};
    ghost use Rattle.mmsyntax.specs.Layout.{HasSpelling};

    ghost Value = { Contents };

    ghost view = { λ d. record { prelude = d.prelude; assertions = d.assertions } };

    ghost invariant = { λ d. HasSpelling (record { prelude = d.prelude; assertions = d.assertions }) };
}

impl Drop for Database {
    fn drop(self) {
        let Database {
            prelude: _,
            assertions: _,
        } = self;
    }
}

impl Database {
    /// The database of a prelude and assertions that some text declares.
    pub fn new(prelude: Prelude, assertions: Sequence<Assertion>) -> Self
        requires { HasSpelling (record { prelude = prelude; assertions = assertions }) }
        ensures { result ≡ record { prelude = prelude; assertions = assertions } }
    {
        Database {
            prelude,
            assertions,
        }
    }

    /// All its `$c`, `$v` and `$f`.
    pub fn prelude(&self) -> &Prelude
        ensures { result.now ≡ self.now.prelude }
    {
        &self.prelude
    }

    /// The assertions, in the order of the text. It is what some text declares.
    pub fn assertions(&self) -> &[Assertion]
        ensures value { result.now ≡ self.now.assertions }
        ensures sound { HasSpelling self.now }
    {
        self.assertions.as_slice()
    }

    /// An equal database.
    pub fn copy(&self, alloc: Global) -> Result<Database, AllocError>
        ensures { IfOk result (λ made. made ≡ self.now) }
    {
        let assertions = copy_assertions(alloc, self.assertions())?;
        Ok(Database::new(self.prelude.copy(alloc)?, assertions))
    }
}

fn copy_assertions(
    alloc: Global,
    assertions: &[Assertion],
) -> Result<Sequence<Assertion>, AllocError>
    ensures { IfOk result (λ made. made ≡ assertions.now) }
{
    let mut made = Vec::new(alloc);
    for assertion in assertions {
        made.push(assertion.copy(alloc)?)?;
    }
    Ok(Sequence::from_vec(made))
}
