//! What a proof may cite.

ghost use Rattle.std.specs.Prelude.{◌≡◌, List, ℕ, Option};
ghost use Rattle.std.specs.Option.{option_copied};
ghost use Rattle.mmsyntax.specs.declared.statement.Frame.{Frame};

use mmsyntax::{Frame, Label};

/// Assertions that may be cited, each seen as its frame.
pub trait Frames {
    ghost frames: { Self → List ℕ → Option Frame };

    /// The frame of the assertion with this label, if it may be cited. A proof asks once for each label that it lists.
    fn frame(&self, label: &Label) -> Option<&Frame>
        ensures { option_copied result ≡ frames self.now label.now };
}
