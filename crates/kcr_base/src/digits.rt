//! Dates and times of day in digits.
ghost use Rattle.std.specs.Prelude.{◌≡◌, ℕ, ◌<◌, [], ◌∷◌, ◌++◌, Some, IfSome};
ghost use Rattle.kcr_base.specs.{Day.two_digits, Day.date_text, Day.IsDateParts, Moment.clock_text};

/// The number below `limit` that two digits tell.
fn read_two(limit: u8, tens: u8, ones: u8) -> Option<u8>
    ensures found { IfSome result (λ n. (n < 100) × (n < limit) × (two_digits n ≡ tens ∷ ones ∷ [])) }
    ensures only { (n : ℕ) → n < 100 → n < limit → two_digits n ≡ tens ∷ ones ∷ [] → result ≡ Some n }
{
    if !tens.is_ascii_digit() || !ones.is_ascii_digit() {
        return None;
    }
    let number = (tens - b'0') * 10 + (ones - b'0');
    if number < limit { Some(number) } else { None }
}

/// The year, the month and the day that a text `YYYY-MM-DD` tells.
pub(crate) fn read_date(bytes: &[u8]) -> Option<(u16, u8, u8)>
    ensures found { IfSome result (λ p. IsDateParts p.0 p.1 p.2 × (date_text p.0 p.1 p.2 ≡ bytes.now)) }
    ensures only { (y m d : ℕ) → IsDateParts y m d → date_text y m d ≡ bytes.now → result ≡ Some (y, m, d) }
{
    let &[a, b, c, d, b'-', e, f, b'-', g, h] = bytes else {
        return None;
    };
    let century = read_two(100, a, b)?;
    let year = read_two(100, c, d)?;
    let month = read_two(100, e, f)?;
    let day = read_two(100, g, h)?;
    Some((century as u16 * 100 + year as u16, month, day))
}

/// The two digits of a number.
pub(crate) fn write_two(n: u8) -> [u8; 2]
    requires { n < 100 }
    ensures { result ≡ two_digits n }
{
    [b'0' + n / 10, b'0' + n % 10]
}

/// The second of the day that a text `THH:MM:SSZ` tells.
pub(crate) fn read_clock(bytes: &[u8]) -> Option<u32>
    ensures found { IfSome result (λ s. (s < 86400) × (84 ∷ clock_text s ++ 90 ∷ [] ≡ bytes.now)) }
    ensures only { (s : ℕ) → s < 86400 → 84 ∷ clock_text s ++ 90 ∷ [] ≡ bytes.now → result ≡ Some s }
{
    let &[b'T', a, b, b':', c, d, b':', e, f, b'Z'] = bytes else {
        return None;
    };
    let hours = read_two(24, a, b)?;
    let minutes = read_two(60, c, d)?;
    let seconds = read_two(60, e, f)?;
    Some(hours as u32 * 3600 + minutes as u32 * 60 + seconds as u32)
}
