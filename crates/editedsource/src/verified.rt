//! The text that is printed verifies: the source with the edits of a run, dressed or as it was read.

ghost use Rattle.std.specs.Prelude.{◌≡◌, IfOk, IfErr};
ghost use Rattle.std.specs.Option.{option_map, unwrap_or};
ghost use Rattle.source.specs.Sources.{DeclaresText};
ghost use Rattle.source.specs.Whole.{IsWhole};
ghost use Rattle.checking.specs.Checks.{Bytes};
ghost use Rattle.verifytext.specs.Verdicts.{IsVerifiedText, IsRefused};
ghost use Rattle.editscripts.specs.Refusals.{IsToldBy};
ghost use Rattle.editedsource.specs.Refusals.{IsFaultyThenLine};

use crate::telling::unverified;
use editscripts::Unedited;
use following::Follow;
use scopes::Scopes;
use std::alloc::Global;
use std::hash::RandomState;
use std::thread::Threads;
use verifytext::{Refusal, Verified, verify, verify_read};

/// What was read verifies. Who follows is told how far it is.
fn verify_followed<'o>(
    rt: &(impl Threads + Sync),
    alloc: Global,
    keys: RandomState,
    new: &Scopes<'o>,
    follow: &(impl Follow + Sync),
) -> Result<Verified, Refusal<'o>>
    requires { IsWhole new.now.stand.scope }
    ensures verified { (text : Bytes) → DeclaresText text new.now.stand.scope → IfOk result (IsVerifiedText text) }
    ensures refused { (text : Bytes) → DeclaresText text new.now.stand.scope → IfErr result (IsRefused text) }
{
    follow.begin_reading();
    let verified = verify_read(rt, alloc, keys, new, None, follow);
    follow.end();
    verified
}

/// The text that is printed: the dressed one, or that which was read.
fn printed_of<'o>(text: &'o [u8], dressed: Option<&'o Vec<u8>>) -> &'o [u8]
    ensures { result.now ≡ unwrap_or (option_map (λ out. out.now.items) dressed.entry) text.now }
{
    match dressed {
        None => text,
        Some(out) => out.as_slice(),
    }
}

/// A text that was read verifies as it is dressed: then this is read, once what the other declares is gone, whose tables are as large.
pub(crate) fn verify_dressed<'o>(
    rt: &(impl Threads + Sync),
    alloc: Global,
    keys: RandomState,
    path: &str,
    text: &'o [u8],
    new: Scopes<'o>,
    dressed: Option<&'o Vec<u8>>,
    follow: &(impl Follow + Sync),
) -> Result<Verified, Unedited>
    requires { IsWhole new.stand.scope }
    ensures verified { DeclaresText text.now new.entry.stand.scope
        → IfOk result (IsVerifiedText (unwrap_or (option_map (λ out. out.now.items) dressed.entry) text.now)) }
    ensures refused { DeclaresText text.now new.entry.stand.scope
        → IfErr result (IsToldBy (IsFaultyThenLine path.now (unwrap_or (option_map (λ out. out.now.items) dressed.entry) text.now))) }
{
    let printed = printed_of(text, dressed);
    let verified = match dressed {
        None => verify_followed(rt, alloc, keys, &new, follow),
        Some(_) => {
            drop(new);
            verify(rt, alloc, keys, printed, None, follow)
        }
    };
    match verified {
        Ok(much) => Ok(much),
        Err(why) => Err(unverified(alloc, path, printed, why)?),
    }
}
