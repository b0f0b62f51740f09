//! The numbers that decimal digits write.

ghost use Rattle.std.specs.Prelude.{◌≡◌};
ghost use Rattle.std.specs.Str.Parse.{AllDigits};
ghost use Rattle.mmsyntax.specs.Numbers.{written_within};

/// The number that decimal digits write, if it is at most 18,446,744,073,709,551,615.
pub fn count(digits: &[u8]) -> Option<u64>
    requires { AllDigits 10 digits.now }
    ensures { result ≡ written_within 18446744073709551615 digits.now }
{
    let mut number: u64 = 0;
    for digit in digits {
        number = number
            .checked_mul(10)?
            .checked_add(u64::from(*digit - b'0'))?;
    }
    Some(number)
}

/// The number that decimal digits write, if it is at most 4,294,967,295.
pub fn number(digits: &[u8]) -> Option<u32>
    requires { AllDigits 10 digits.now }
    ensures { result ≡ written_within 4294967295 digits.now }
{
    match count(digits) {
        Some(number) => u32::try_from(number).ok(),
        None => None,
    }
}
