//! Where each item of a source stands then, and what is put in between.

ghost use Rattle.std.specs.Prelude.{◌≡◌, ◌≤◌, ◌<◌, [], All, List, IfErr, IfOk, length};
ghost use Rattle.leaving.specs.Leaving.{AreGoing};
ghost use Rattle.items.specs.Items.{Item as Pieces};
ghost use Rattle.arranging.specs.Parts.{Edited, parts};
ghost use Rattle.arranging.specs.Arranged.{IsLayout};
ghost use Rattle.arranging.specs.Places.{MayCome, GoesOn, item_placed};

use crate::coming::{Coming, Placed};
use std::alloc::{AllocError, Global};

/// Puts all that comes at a place, from a number of it on. The number behind these.
fn put_at<'t>(
    layout: &mut Vec<Placed<'t>>,
    comings: &[Coming<'t>],
    from: usize,
    place: usize,
) -> Result<usize, AllocError>
    requires { from ≤ length comings.now }
    ensures next { IfOk result (λ next. next ≤ length comings.now) }
    ensures layout { (e : Edited) (old : List Pieces) → All (MayCome e old) comings.now → GoesOn e old layout.old.items place
        → IfOk result (λ _. GoesOn e old layout.new.items place) }
{
    let mut next = from;
    while next < comings.len() && comings[next].place == place {
        layout.push(Placed::Comes(comings[next]))?;
        next += 1;
    }
    Ok(next)
}

/// What stands where the next item stood.
fn item_placed<'t>(leaves: bool) -> Placed<'t>
    ensures { result ≡ item_placed leaves }
{
    if leaves { Placed::Goes } else { Placed::Stays }
}

/// Where items stand, of which those leave their places which these flags say, and what is put in between: it is given in the order of
/// its places. Where it isn't in this order, the number of the first that is left.
pub(crate) fn layout_of<'t>(
    alloc: Global,
    goes: &[bool],
    comings: &[Coming<'t>],
) -> Result<Result<Vec<Placed<'t>>, usize>, AllocError>
    ensures laid { (e : Edited) (old : List Pieces) → AreGoing [] (parts e old) goes.now → All (MayCome e old) comings.now
        → IfOk result (λ made. IfOk made (λ layout. IsLayout e [] old layout.items)) }
    ensures left { IfOk result (λ made. IfErr made (λ number. number < length comings.now)) }
{
    let mut layout = Vec::with_capacity(alloc, goes.len())?;
    let mut next = 0;
    for (place, leaves) in goes.iter().enumerate() {
        next = put_at(&mut layout, comings, next, place)?;
        layout.push(item_placed(*leaves))?;
    }
    next = put_at(&mut layout, comings, next, goes.len())?;
    if next < comings.len() {
        return Ok(Err(next));
    }
    Ok(Ok(layout))
}
