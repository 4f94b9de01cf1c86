//! Registers and numbers as they are written.
ghost use Rattle.std.specs.Prelude.{◌≡◌, ℕ, ◌<◌, ◌≤◌, ◌^◌, ◌*◌, ◌<ℤ◌, pos, neg_ℤ, IfSome, slice_index_or, [], codes, length, map};
ghost use Rattle.std.specs.Str.{bytes_eq};
ghost use Rattle.rv_statement.specs.Operands.{register_names, is_named, register_of, digit_value, digits_of, number_of};
ghost use Rattle.rv_statement.specs.Operands.{begins_name, in_name, all_in_name, is_name};

/// The two names of each register, from x0 up.
const NAMES: &[(&str, &str)] = &[
    ("x0", "zero"),
    ("x1", "ra"),
    ("x2", "sp"),
    ("x3", "gp"),
    ("x4", "tp"),
    ("x5", "t0"),
    ("x6", "t1"),
    ("x7", "t2"),
    ("x8", "s0"),
    ("x9", "s1"),
    ("x10", "a0"),
    ("x11", "a1"),
    ("x12", "a2"),
    ("x13", "a3"),
    ("x14", "a4"),
    ("x15", "a5"),
    ("x16", "a6"),
    ("x17", "a7"),
    ("x18", "s2"),
    ("x19", "s3"),
    ("x20", "s4"),
    ("x21", "s5"),
    ("x22", "s6"),
    ("x23", "s7"),
    ("x24", "s8"),
    ("x25", "s9"),
    ("x26", "s10"),
    ("x27", "s11"),
    ("x28", "t3"),
    ("x29", "t4"),
    ("x30", "t5"),
    ("x31", "t6"),
];

fn all_names() -> &'static [(&'static str, &'static str)]
    ensures names { map (λ names. (names.0.now, names.1.now)) result.now ≡ register_names }
    ensures count { length result.now ≡ 32 }
{
    NAMES
}

/// The two names of a register.
fn names(number: u8) -> (&'static str, &'static str)
    requires { number < 32 }
    ensures plain { result.0.now ≡ (slice_index_or register_names number ([], [])).0 }
    ensures usual { result.1.now ≡ (slice_index_or register_names number ([], [])).1 }
{
    all_names()[usize::from(number)]
}

/// Whether a text is one of the names of a register.
fn is_named(text: &[u8], number: u8) -> bool
    requires { number < 32 }
    ensures { result ≡ is_named text.now (slice_index_or register_names number ([], [])) }
{
    let (plain, usual) = names(number);
    text == plain.as_bytes() || text == usual.as_bytes()
}

fn is_frame_pointer(text: &[u8]) -> bool
    ensures { result ≡ bytes_eq text.now (codes "fp") }
{
    text == "fp".as_bytes()
}

/// The register that a text names.
#[tactic(auto, unfolding(crate::specs::Operands::register_of))]
pub(crate) fn register_of(text: &[u8]) -> Option<u8>
    ensures value { result ≡ register_of text.now }
    ensures small { IfSome result (λ number. number < 32) }
{
    if is_frame_pointer(text) {
        return Some(8);
    }
    'numbers: for number in 0..32u8 {
        if is_named(text, number) {
            return Some(number);
        }
    }
    None
}

/// The value of a hexadecimal digit in either case, and 16 for any other byte.
fn digit_value(byte: u8) -> u8
    ensures { result ≡ digit_value byte }
{
    match byte {
        b'0'..=b'9' => byte - b'0',
        b'a'..=b'f' => byte - b'a' + 10,
        b'A'..=b'F' => byte - b'A' + 10,
        _ => 16,
    }
}

/// The number that 1 to 12 digits of a base are.
#[tactic(auto, unfolding(crate::specs::Operands::digits_of))]
fn digits_of(text: &[u8], base: u8) -> Option<u64>
    requires { base ≤ 16 }
    ensures value { result ≡ digits_of base text.now }
    ensures small { IfSome result (λ number. number < 2 ^ 48) }
{
    if text.is_empty() || text.len() > 12 {
        return None;
    }
    let mut number = 0u64;
    'digits: for byte in text {
        let digit = digit_value(*byte);
        if digit >= base {
            return None;
        }
        number = number * u64::from(base) + u64::from(digit);
    }
    Some(number)
}

/// Decimal digits with or without a leading `-`, or `0x` and hexadecimal digits.
#[tactic(auto, unfolding(crate::specs::Operands::number_of))]
pub(crate) fn number_of(text: &[u8]) -> Option<i64>
    ensures { result ≡ number_of text.now }
{
    if let Some(digits) = text.strip_prefix(b"-") {
        let number = digits_of(digits, 10)?;
        return Some(-(number as i64));
    }
    if let Some(digits) = text.strip_prefix(b"0x") {
        let number = digits_of(digits, 16)?;
        return Some(number as i64);
    }
    let number = digits_of(text, 10)?;
    Some(number as i64)
}

fn begins_name(byte: u8) -> bool
    ensures { result ≡ begins_name byte }
{
    matches!(byte, b'A'..=b'Z' | b'a'..=b'z' | b'_')
}

fn in_name(byte: u8) -> bool
    ensures { result ≡ in_name byte }
{
    begins_name(byte) || byte.is_ascii_digit()
}

/// Whether a text may name a label.
pub(crate) fn is_name(text: &[u8]) -> bool
    ensures { result ≡ is_name text.now }
{
    match text.split_first() {
        Some((first, rest)) => begins_name(*first) && all_in_name(rest),
        None => false,
    }
}

fn all_in_name(text: &[u8]) -> bool
    ensures { result ≡ all_in_name text.now }
{
    'bytes: for byte in text {
        if !in_name(*byte) {
            return false;
        }
    }
    true
}
