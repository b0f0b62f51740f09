//! What a run takes along, and gives back at its end.

use bodystore::Stage;
use lawful::LibraryLaw;
use std::marker::Model;
use std::snapshot::Snapshot;
use tlwords::Pass;

/// What a run takes along: a pass of the words, and the ranges that were staged for it since its last commit. Contracts see what the pass
/// knows, what is staged, and whether the store had no room for words that the last run was to stage.
#[derive(Drop)]
pub struct Kit {
    pub pass: Pass<LibraryLaw>,
    pub stage: Stage,
    /// Of the last run.
    pub lacked_room: Snapshot<bool>,
}

impl Model for Kit {
    ghost use Rattle.bodystore.specs.Stages.{AreStaged};
    ghost use Rattle.std.specs.Coded.{codes};
    ghost use Rattle.lending.specs.Lent.{Carried, staged_code};

    ghost Value = { Carried };

    ghost coded = { Prim.hlevel (codes, staged_code) };

    ghost view = { λ k. record { pass = k.pass; staged = k.stage; lacked_room = k.lacked_room.value } };

    ghost invariant = { λ k. AreStaged k.pass.seen.ranges k.stage };
}

impl Kit {
    ghost use Rattle.std.specs.Prelude.{◌≡◌};

    /// Its pass. What was staged is forgotten.
    pub fn into_pass(self) -> Pass<LibraryLaw>
        ensures { result ≡ self.pass }
    {
        let Kit {
            pass,
            stage: _,
            lacked_room: _,
        } = self;
        pass
    }
}
