//! Which labels of a proof name what is there.

ghost use Rattle.std.specs.Prelude.{◌≡◌, IfSome, List, find, is_some, map, option_map};
ghost use Rattle.mmtext.specs.Words.{Word as Label};
ghost use Rattle.mmtext.specs.Views.{seen};
ghost use Rattle.source.specs.Scopes.{Assertion as Theorem, Hypothesis};
ghost use Rattle.source.specs.Proofs.{taken_by};
ghost use Rattle.prooftrees.specs.Names.{AreFrames};
ghost use Rattle.prooftrees.specs.Roles.{looks_up, role_of};
ghost use Rattle.pasting.specs.Proofs.{is_unnamed};
ghost use Rattle.pasting.specs.Views.{flags_in};

use crate::additions::{Citing, may_cite};
use mmtext::Token;
use prooftrees::Roles;
use source::Declared;

/// Whether a label is that of an active hypothesis, of which these are the roles, or of an assertion that may be cited.
fn is_named<'a, D: Declared<'a>>(
    citing: &Citing<'_, '_, D>,
    roles: &Roles<'_>,
    label: &[u8],
) -> bool
    ensures { (earlier : List Theorem) (active : List Hypothesis)
        → AreFrames earlier (flags_in (D.scope citing.now.declared.now).assertions citing.now.additions.now)
        → ((w : Label) → looks_up roles.now.roles w ≡ role_of active w)
        → result ≡ is_some (taken_by earlier active label.now) }
{
    roles.have(label) || may_cite(citing, label)
}

/// The first of these words that is neither the label of an active hypothesis, of which these are the roles, nor that of an assertion
/// that may be cited.
pub(crate) fn first_unnamed<'w, 'a, D: Declared<'a>>(
    citing: &Citing<'_, '_, D>,
    roles: &Roles<'_>,
    words: &[Token<'w>],
) -> Option<Token<'w>>
    ensures { (earlier : List Theorem) (x : Theorem)
        → AreFrames earlier (flags_in (D.scope citing.now.declared.now).assertions citing.now.additions.now)
        → ((w : Label) → looks_up roles.now.roles w ≡ role_of x.active w)
        → option_map seen result ≡ find (is_unnamed earlier x) (map seen words.now) }
{
    for word in words {
        if !is_named(citing, roles, word.text) {
            return Some(*word);
        }
    }
    None
}
