//! Numbers as the letters of a compressed proof (Metamath book, appendix B).

ghost use Rattle.std.specs.Prelude.{◌+◌, ◌<◌, ◌≤◌, [], ◌∷◌, IfOk};
ghost use Rattle.source.specs.declared.letters.Code.TheVariants.{Number};
ghost use Rattle.sourcewriting.specs.Letters.{ArePut};

use std::alloc::AllocError;

/// Puts the letters that stand in front of the last one: U to Y, which count 1 to 5. None stands for 0.
fn put_front(letters: &mut Vec<u8>, front: usize) -> Result<(), AllocError>
    ensures { IfOk result (λ _. front ≤ 13421772 → ArePut (record { codes = []; front = front }) letters.old.items letters.new.items) }
{
    if front == 0 {
        return Ok(());
    }
    put_front(letters, (front - 1) / 5)?;
    letters.push(b'U' + ((front - 1) % 5) as u8)?;
    Ok(())
}

/// Puts the letters of a number, counted from 0: the last of them is one of A to T, which count 1 to 20 (Metamath book, appendix B).
///
/// # Errors
///
/// Want of memory; some of the letters may be put then.
pub fn put_number(letters: &mut Vec<u8>, number: usize) -> Result<(), AllocError>
    ensures { IfOk result (λ _. number < 268435460
        → ArePut (record { codes = Number (number + 1) ∷ []; front = 0 }) letters.old.items letters.new.items) }
{
    put_front(letters, number / 20)?;
    letters.push(b'A' + (number % 20) as u8)?;
    Ok(())
}
