//! The hypotheses that a proof names, by their labels.

ghost use Rattle.std.specs.Prelude.{◌≡◌, ◌∷◌, ◌++◌, [], List, IfOk, OnOk, is_some};
ghost use Rattle.std.specs.Str.{bytes_eq};
ghost use Rattle.mmtext.specs.Words.{Word};
ghost use Rattle.source.specs.Scopes.{Hypothesis};
ghost use Rattle.source.specs.Views.{seen_hypothesis, seen_hypotheses};
ghost use Rattle.prooftrees.specs.Roles.{role_of, stays, noted, looks_up, AreRoles};

use source::HypothesisWords;
use std::alloc::{AllocError, Global};
use std::collections::HashMap;
use std::hash::RandomState;
use taking::next_number;

/// What the label of a hypothesis names.
#[derive(Clone, Copy)]
pub(crate) enum Role {
    /// A `$f`.
    Float,
    /// A `$e`, by its number among them, from 0.
    Premise(u32),
}

/// What the labels of hypotheses name: each a `$f`, or a `$e` by its number among them.
#[derive(Drop)]
pub struct Roles<'a> {
    pub(crate) roles: HashMap<&'a [u8], Role, RandomState>,
}

/// Whether a label goes on to name what it names so far: its first `$e`, or else its first `$f`.
fn stays(so_far: Option<Role>, role: Role) -> bool
    ensures { result ≡ stays so_far role }
{
    match so_far {
        None => false,
        Some(Role::Float) => matches!(role, Role::Float),
        Some(Role::Premise(_)) => true,
    }
}

/// The label of one more hypothesis is noted. After an error nothing is said of the map.
fn note<'a>(
    roles: &mut HashMap<&'a [u8], Role, RandomState>,
    label: &'a [u8],
    role: Role,
) -> Result<(), AllocError>
    ensures { OnOk result ((w : Word) → looks_up roles.new w ≡ noted role (bytes_eq label.entry.now w) (looks_up roles.old w)) }
{
    let so_far = roles.get(&label).copied();
    if stays(so_far, role) {
        return Ok(());
    }
    roles.insert(label, role)?;
    Ok(())
}

/// One more hypothesis is noted, behind as many `$e`: how many these are with it. After an error nothing is said of the map.
fn note_hypothesis<'a>(
    roles: &mut HashMap<&'a [u8], Role, RandomState>,
    hypothesis: &HypothesisWords<'a>,
    premises: u32,
) -> Result<u32, AllocError>
    ensures { IfOk result (λ next. (hs : List Hypothesis) → AreRoles hs (looks_up roles.old) premises
        → AreRoles (hs ++ seen_hypothesis hypothesis.now ∷ []) (looks_up roles.new) next) }
{
    match hypothesis {
        HypothesisWords::Typing(label, _, _) => {
            note(roles, label, Role::Float)?;
            Ok(premises)
        }
        HypothesisWords::Premise(label, _) => {
            note(roles, label, Role::Premise(premises))?;
            next_number(premises)
        }
    }
}

impl<'a> Roles<'a> {
    /// What the labels of these hypotheses name.
    ///
    /// # Errors
    ///
    /// Want of memory. Over 4,294,967,295 `$e` would be refused as if memory were wanting.
    pub fn new(
        alloc: Global,
        keys: RandomState,
        hypotheses: Vec<&HypothesisWords<'a>>,
    ) -> Result<Roles<'a>, AllocError>
        ensures { IfOk result (λ made. (w : Word) → looks_up made.roles w ≡ role_of (seen_hypotheses hypotheses.entry.items) w) }
    {
        let mut roles = HashMap::with_capacity_and_hasher(alloc, hypotheses.len(), keys)?;
        let mut premises = 0;
        for hypothesis in hypotheses {
            premises = note_hypothesis(&mut roles, hypothesis, premises)?;
        }
        Ok(Roles { roles })
    }

    /// Whether a label is that of one of the hypotheses: one look-up.
    pub fn have(&self, label: &[u8]) -> bool
        ensures { result ≡ is_some (looks_up self.now.roles label.now) }
    {
        self.role(label).is_some()
    }

    /// What a label names, if it is that of one of the hypotheses: one look-up.
    pub(crate) fn role(&self, label: &[u8]) -> Option<Role>
        ensures { result ≡ looks_up self.now.roles label.now }
    {
        self.roles.get(&label).copied()
    }
}
