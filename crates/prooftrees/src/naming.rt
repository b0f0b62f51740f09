//! What the labels of a proof name.

ghost use Rattle.std.specs.Prelude.{◌≡◌, List, [], All, IfOk};
ghost use Rattle.mmtext.specs.Words.{Word};
ghost use Rattle.source.specs.Scopes.{Assertion, Hypothesis};
ghost use Rattle.source.specs.Views.{seen_words};
ghost use Rattle.taking.specs.Names.{label_in, float_in};
ghost use Rattle.taking.specs.Listings.{own_step};
ghost use Rattle.taking.specs.Settings.{AreNamed};
ghost use Rattle.prooftrees.specs.Roles.{number_of, looks_up};
ghost use Rattle.prooftrees.specs.Names.{AreEnough, AreFrames, IsKnown, IsNamed, IsOther};

use crate::cited::CitedFrames;
use crate::roles::{Role, Roles};
use mmsyntax::{Sequence, Step};
use std::alloc::{AllocError, Global};
use taking::{Named, StepPlaces};

/// A hypothesis is named: it takes nothing, and a `$e` has its number for a step.
fn name_hypothesis<P: StepPlaces>(
    alloc: Global,
    places: &P,
    role: Role,
    label: &[u8],
) -> Result<Named, AllocError>
    ensures floats { IfOk result (λ named. named.floats ≡ []) }
    ensures step { IfOk result (λ named. named.step
        ≡ own_step (number_of role) (float_in (P.places places.now) label.now) (label_in (P.places places.now) label.now)) }
{
    let step = match role {
        Role::Float => places.step(alloc, label)?,
        Role::Premise(number) => Some(Step::Hyp(number)),
    };
    let floats = Sequence::from_vec(Vec::new(alloc));
    Ok(Named { floats, step })
}

/// A label that has no role where roles are looked for is named: that of an assertion, or else of a `$f`.
fn name_other<'a, C: CitedFrames<'a>, P: StepPlaces>(
    alloc: Global,
    cited: &mut C,
    places: &P,
    label: &[u8],
) -> Result<Named, AllocError>
    requires { C.is_right cited.old }
    ensures right { C.is_right cited.new }
    ensures assertions { C.assertions cited.new ≡ C.assertions cited.old }
    ensures same { (w : Word) → C.floats cited.new w ≡ C.floats cited.old w }
    ensures named { IfOk result (λ named. (earlier : List Assertion) (active : List Hypothesis) → AreFrames earlier (C.floats cited.old)
        → IsOther earlier active label.now → IsNamed (P.places places.now) earlier active label.now named) }
{
    match cited.floats(alloc, label)? {
        Some(floats) => {
            let step = places.step(alloc, label)?;
            Ok(Named { floats, step })
        }
        None => name_hypothesis(alloc, places, Role::Float, label),
    }
}

/// What a label names, where these roles are enough.
fn name_label<'a, C: CitedFrames<'a>, P: StepPlaces>(
    alloc: Global,
    cited: &mut C,
    places: &P,
    roles: &Roles<'_>,
    label: &[u8],
) -> Result<Named, AllocError>
    requires { C.is_right cited.old }
    ensures right { C.is_right cited.new }
    ensures assertions { C.assertions cited.new ≡ C.assertions cited.old }
    ensures same { (w : Word) → C.floats cited.new w ≡ C.floats cited.old w }
    ensures named { IfOk result (λ named. (earlier : List Assertion) (active : List Hypothesis) → AreFrames earlier (C.floats cited.old)
        → AreEnough earlier active (looks_up roles.now.roles) → IsKnown earlier active label.now
        → IsNamed (P.places places.now) earlier active label.now named) }
{
    match roles.role(label) {
        Some(role) => name_hypothesis(alloc, places, role, label),
        None => name_other(alloc, cited, places, label),
    }
}

/// What labels name, where these roles are enough.
pub(crate) fn name_labels<'a, C: CitedFrames<'a>, P: StepPlaces>(
    alloc: Global,
    cited: &mut C,
    places: &P,
    roles: &Roles<'_>,
    labels: &[&[u8]],
) -> Result<Vec<Named>, AllocError>
    requires { C.is_right cited.old }
    ensures right { C.is_right cited.new }
    ensures assertions { C.assertions cited.new ≡ C.assertions cited.old }
    ensures named { IfOk result (λ named. (earlier : List Assertion) (active : List Hypothesis) → AreFrames earlier (C.floats cited.old)
        → AreEnough earlier active (looks_up roles.now.roles) → All (IsKnown earlier active) (seen_words labels.now)
        → AreNamed (record { places = P.places places.now; earlier = earlier; active = active; labels = seen_words labels.now })
        named.items) }
{
    let mut named = Vec::with_capacity(alloc, labels.len())?;
    for label in labels {
        named.push(name_label(alloc, cited, places, roles, label)?)?;
    }
    Ok(named)
}
