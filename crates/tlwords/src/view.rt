//! What a seat at the table knows.
#![tactic(auto)]

use std::marker::{Model, PhantomData};

/// What a seat at the table knows, for contracts alone. No value of it is made.
pub(crate) struct View<S, N> {
    marker: PhantomData<(S, N)>,
}

impl<S, N> Model for View<S, N> {
    ghost use Rattle.tlwords.specs.Views.{View as Shown, nobody};

    ghost Value = { Shown S N };

    ghost view = { λ _. nobody };
}
