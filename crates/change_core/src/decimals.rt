//! Decimal numbers as texts write them.
ghost use Rattle.std.specs.Prelude.{◌≡◌, ℕ, List, ◌+◌, ◌∷◌, ◌++◌, ◌^◌, ◌<◌, ◌≤◌, IfSome, IsSomeAnd, IsTrue, ◌↔◌, Some, None};
ghost use Rattle.std.specs.Fmt.{decimal};
ghost use Rattle.change_core.specs.Numbers.{greatest_number};
ghost use Rattle.change_core.specs.Numeral.{IsPlain, StopsDigits, number_text};

use crate::numbers::MAX_NUMBER;

/// Reads a number from 0 to 9,007,199,254,740,991 in decimal, with no sign and no leading zero. None for any other text.
pub fn read_number(text: &str) -> Option<u64>
    ensures read { IfSome result (λ n. (n ≤ greatest_number) × (text.now ≡ number_text n)) }
    ensures exact { (n : ℕ) → n ≤ greatest_number → text.now ≡ number_text n → result ≡ Some n }
{
    let number = read_decimal(text)?;
    if number <= MAX_NUMBER {
        Some(number)
    } else {
        None
    }
}

/// Reads a number of 64 bits in decimal, with no sign and no leading zero.
fn read_decimal(text: &str) -> Option<u64>
    ensures read { IfSome result (λ n. (n < 2 ^ 64) × (text.now ≡ decimal n)) }
    ensures exact { (n : ℕ) → n < 2 ^ 64 → text.now ≡ decimal n → result ≡ Some n }
{
    if !is_plain(text.as_bytes()) {
        return None;
    }
    match text.parse::<u64>() {
        Ok(number) => Some(number),
        Err(_) => None,
    }
}

/// Returns whether there is no sign in front, and no leading zero.
fn is_plain(bytes: &[u8]) -> bool
    ensures { IsTrue result ↔ IsPlain bytes.now }
{
    if bytes.is_empty() {
        return false;
    }
    bytes[0] != b'+' && (bytes[0] != b'0' || bytes.len() == 1)
}

/// Returns the value of the digit in front, and what follows it.
#[inline(always)]
fn first_digit(bytes: &[u8]) -> Option<(u32, &[u8])>
    ensures digit { IfSome result (λ p. (p.0 < 10) × (bytes.now ≡ (48 + p.0) ∷ p.1.now)) }
    ensures none { result ≡ None → StopsDigits bytes.now }
{
    if bytes.is_empty() || bytes[0] < b'0' || bytes[0] > b'9' {
        return None;
    }
    Some((u32::from(bytes[0] - b'0'), &bytes[1..]))
}

/// Reads the decimal number at the front, as far as digits go, and returns what follows it. A zero in front is read
/// alone, so that no number has leading zeros. None without a digit in front, or if the number is over `most`.
#[inline(always)]
pub(crate) fn read_front(bytes: &[u8], most: u32) -> Option<(u32, &[u8])>
    requires { most < 2 ^ 16 }
    ensures read { IfSome result (λ p. (p.0 ≤ most) × (bytes.now ≡ decimal p.0 ++ p.1.now)) }
    ensures exact { (n : ℕ) (rest : List ℕ) → n ≤ most → StopsDigits rest → bytes.now ≡ decimal n ++ rest
        → IsSomeAnd result (λ p. (p.0 ≡ n) × (p.1.now ≡ rest)) }
{
    let mut number = 0u32;
    let mut rest = bytes;
    'digits: loop {
        let Some((digit, behind)) = first_digit(rest) else {
            break 'digits;
        };
        number = 10 * number + digit;
        rest = behind;
        if number == 0 {
            return Some((0, rest));
        }
        if number > most {
            return None;
        }
    }
    if number == 0 {
        return None;
    }
    Some((number, rest))
}
