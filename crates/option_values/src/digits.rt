//! Numbers in digits of a radix.
ghost use Rattle.std.specs.Prelude.{◌≡◌, ◌≤◌, ◌^◌, ◌==◌, slice_index};
ghost use Rattle.option_values.specs.Values.{number_below};

fn has_plus(text: &str) -> bool
    ensures { result ≡ (slice_index text.now 0 == 43) }
{
    !text.is_empty() && text.as_bytes()[0] == b'+'
}

/// The number that digits write, where it is below 2^64. A sign is no digit.
pub(crate) fn number_in_radix(text: &str, radix: u32) -> Option<u64>
    requires least { 2 ≤ radix }
    requires greatest { radix ≤ 36 }
    ensures { result ≡ number_below (2 ^ 64) radix text.now }
{
    // The reader of std takes a plus before the digits.
    if has_plus(text) {
        return None;
    }
    u64::from_str_radix(text, radix).ok()
}
