//! Numbers in texts.
ghost use Rattle.std.specs.Prelude.{◌≡◌, ◌+◌, ◌*◌, ◌<◌, ◌≤◌, ◌^◌, IfSome, IsNone, ◌↔◌, true, false};
ghost use Rattle.sn_text.specs.Digits.{is_digit, number_of, number_from, if_below};

/// The value of a decimal digit.
fn digit_in(byte: u8) -> Option<u8>
    ensures none { IsNone result ↔ (is_digit byte ≡ false) }
    ensures some { IfSome result (λ digit. (is_digit byte ≡ true) × (digit + 48 ≡ byte) × (digit < 10)) }
{
    match byte {
        b'0'..=b'9' => Some(byte - b'0'),
        _ => None,
    }
}

// A number with one more digit, where it is below 2^64.
fn with_digit(number: u64, digit: u8) -> Option<u64>
    requires { digit < 10 }
    ensures none { IsNone result ↔ (2 ^ 64 ≤ 10 * number + digit) }
    ensures some { IfSome result (λ longer. longer ≡ 10 * number + digit) }
{
    let longer = 10 * u128::from(number) + u128::from(digit);
    u64::try_from(longer).ok()
}

// The number that decimal digits write, where it is below 2^64.
fn digits_in(text: &[u8]) -> Option<u64>
    ensures { result ≡ if_below (2 ^ 64) (number_from 0 text.now) }
{
    let mut number = 0u64;
    'digits: for byte in text {
        let Some(digit) = digit_in(*byte) else {
            return None;
        };
        let Some(longer) = with_digit(number, digit) else {
            return None;
        };
        number = longer;
    }
    Some(number)
}

/// A number as a script has it: 0, or digits without a leading zero, below 2^64.
pub fn number_in(text: &[u8]) -> Option<u64>
    ensures { result ≡ number_of text.now }
{
    if text.is_empty() {
        return None;
    }
    if text[0] == b'0' && text.len() > 1 {
        return None;
    }
    digits_in(text)
}
