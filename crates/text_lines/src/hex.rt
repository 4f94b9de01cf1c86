//! Numbers in hexadecimal digits.
ghost use Rattle.std.specs.Prelude.{◌≡◌, ◌<◌};
ghost use Rattle.text_lines.specs.Hex.{hex_digit, hex_byte, hex_word};

fn hex_digit(digit: u32) -> u8
    requires { digit < 16 }
    ensures { result ≡ hex_digit digit }
{
    if digit < 10 {
        b'0' + digit as u8
    } else {
        b'a' - 10 + digit as u8
    }
}

/// A byte in two digits, in lower case.
#[tactic(auto, unfolding(crate::specs::Hex::hex_byte))]
pub fn hex_byte(byte: u8) -> [u8; 2]
    ensures { result ≡ hex_byte byte }
{
    let byte = u32::from(byte);
    [hex_digit(byte / 16 % 16), hex_digit(byte % 16)]
}

/// A word in eight digits, in lower case.
#[tactic(auto, unfolding(crate::specs::Hex::hex_word))]
pub fn hex_word(word: u32) -> [u8; 8]
    ensures { result ≡ hex_word word }
{
    [
        hex_digit(word / 0x1000_0000 % 16),
        hex_digit(word / 0x100_0000 % 16),
        hex_digit(word / 0x10_0000 % 16),
        hex_digit(word / 0x1_0000 % 16),
        hex_digit(word / 0x1000 % 16),
        hex_digit(word / 0x100 % 16),
        hex_digit(word / 0x10 % 16),
        hex_digit(word % 16),
    ]
}
