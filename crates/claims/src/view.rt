//! What a seat at the table knows.

use std::marker::Model;

/// What a seat at the table knows, for contracts alone. No value of it is made.
pub(crate) struct View;

impl Model for View {
    ghost use Rattle.claims.specs.Rule.{View as Shown, nobody};

    ghost Value = { Shown };

    ghost view = { λ _. nobody };
}
