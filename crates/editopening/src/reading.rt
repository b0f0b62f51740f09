//! What the source declares that scripts edit.

ghost use Rattle.std.specs.Prelude.{IfOk, IfErr};
ghost use Rattle.source.specs.Sources.{DeclaresText};
ghost use Rattle.editopening.specs.Refusals.{IsFaultyLine};
ghost use Rattle.editscripts.specs.Refusals.{IsToldBy};

use editscripts::{Unedited, untaken};
use following::Follow;
use mmtext::FaultKind;
use scopes::Scopes;
use sourcereader::read_source;
use std::alloc::Global;
use std::hash::RandomState;

/// What the source declares. Who follows is told that it is read.
///
/// # Errors
///
/// A line that tells its first fault; want of memory.
pub fn read_old<'a>(
    alloc: Global,
    keys: RandomState,
    path: &str,
    source: &'a [u8],
    follow: &impl Follow,
) -> Result<Scopes<'a>, Unedited>
    ensures declares { IfOk result (λ s. DeclaresText source.now s.stand.scope) }
    ensures refused { IfErr result (IsToldBy (IsFaultyLine path.now source.now)) }
{
    follow.begin_reading();
    match read_source(alloc, Scopes::new(alloc, keys), source) {
        Ok(scopes) => Ok(scopes),
        Err(fault) => {
            if fault.kind == FaultKind::NoMemory {
                return Err(Unedited::NoMemory);
            }
            let why = intake::Refusal::Source(fault);
            Err(untaken(alloc, path, source, &why)?)
        }
    }
}
