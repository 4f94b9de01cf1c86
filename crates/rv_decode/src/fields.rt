//! The fields of a word.
ghost use Rattle.std.specs.Prelude.{◌≡◌, ◌<◌, ◌*◌, ◌^◌, ℕ};
ghost use Rattle.rv_decode.specs.Parts.{opcode, rd_of, funct3, rs1_of, rs2_of, funct7, funct5, signed, i_imm, s_imm, b_imm, u_imm, j_imm};

pub(crate) fn opcode(word: u32) -> u32
    ensures { result ≡ opcode word }
{
    word % 128
}

pub(crate) fn rd(word: u32) -> u8
    ensures { result ≡ rd_of word }
{
    ((word >> 7) % 32) as u8
}

pub(crate) fn funct3(word: u32) -> u32
    ensures { result ≡ funct3 word }
{
    (word >> 12) % 8
}

pub(crate) fn rs1(word: u32) -> u8
    ensures { result ≡ rs1_of word }
{
    ((word >> 15) % 32) as u8
}

pub(crate) fn rs2(word: u32) -> u8
    ensures { result ≡ rs2_of word }
{
    ((word >> 20) % 32) as u8
}

pub(crate) fn funct7(word: u32) -> u32
    ensures { result ≡ funct7 word }
{
    (word >> 25) % 128
}

pub(crate) fn funct5(word: u32) -> u32
    ensures { result ≡ funct5 word }
{
    (word >> 27) % 32
}

/// A number below twice `half`, read with its highest bit as its sign.
fn signed(number: u32, half: u32) -> i32
    requires small { number < 2 * half }
    requires fits { half < 2 ^ 30 }
    ensures { result ≡ signed half number }
{
    if number < half {
        number as i32
    } else {
        number as i32 - 2 * half as i32
    }
}

/// The immediate of the I form.
pub(crate) fn i_imm(word: u32) -> i32
    ensures { result ≡ i_imm word }
{
    signed((word >> 20) % 4096, 0x800)
}

/// The immediate of the S form.
pub(crate) fn s_imm(word: u32) -> i32
    ensures { result ≡ s_imm word }
{
    signed((word >> 25) % 128 * 32 + (word >> 7) % 32, 0x800)
}

/// The offset of the B form.
pub(crate) fn b_imm(word: u32) -> i32
    ensures { result ≡ b_imm word }
{
    let high = (word >> 31) % 2 * 0x1000 + (word >> 7) % 2 * 0x800;
    signed(
        high + (word >> 25) % 64 * 0x20 + (word >> 8) % 16 * 2,
        0x1000,
    )
}

/// The immediate of the U form, in its place in the word.
pub(crate) fn u_imm(word: u32) -> u32
    ensures { result ≡ u_imm word }
{
    (word >> 12) % 0x10_0000 * 0x1000
}

/// The offset of the J form.
pub(crate) fn j_imm(word: u32) -> i32
    ensures { result ≡ j_imm word }
{
    let high = (word >> 31) % 2 * 0x10_0000 + (word >> 12) % 256 * 0x1000;
    signed(
        high + (word >> 20) % 2 * 0x800 + (word >> 21) % 1024 * 2,
        0x10_0000,
    )
}
