//! The arithmetic of words: whole numbers modulo 2^32, as the instructions of a tile compute them.
//!
//! The rules are those of the MIPS32 architecture manual for its integer instructions.
ghost use Rattle.std.specs.Prelude.{◌≡◌, ℕ, ◌^◌, ◌<◌};
ghost use Rattle.raw_tile_isa.specs.Words.{word_add, word_sub, word_mul_low, word_mul_high, word_mul_high_unsigned, word_shift_left, word_shift_right, word_shift_right_signed, word_less, word_less_unsigned, word_leading_zeros, word_ones, sign_extended, sign_extended_byte};

/// The sum of two words, as of `addu`.
pub fn add(a: u32, b: u32) -> u32
    ensures { result ≡ word_add a b }
{
    a.wrapping_add(b)
}

/// The difference of two words, as of `subu`.
#[tactic(auto, unfolding(crate::specs::Words::word_sub))]
pub fn sub(a: u32, b: u32) -> u32
    ensures { result ≡ word_sub a b }
{
    a.wrapping_sub(b)
}

/// The low half of the product of two words, as of `mul`.
#[tactic(auto, unfolding(crate::specs::Words::word_mul_low))]
pub fn mul_low(a: u32, b: u32) -> u32
    ensures { result ≡ word_mul_low a b }
{
    a.wrapping_mul(b)
}

/// The high half of the product of two words that are read as signed, as of `mulhi`.
pub fn mul_high(a: u32, b: u32) -> u32
    ensures { result ≡ word_mul_high a b }
{
    let product = i64::from(a.cast_signed()) * i64::from(b.cast_signed());
    (product.cast_unsigned() >> 32) as u32
}

/// The high half of the product of two words, as of `mulhu`.
#[tactic(auto, unfolding(crate::specs::Words::word_mul_high_unsigned))]
pub fn mul_high_unsigned(a: u32, b: u32) -> u32
    ensures { result ≡ word_mul_high_unsigned a b }
{
    (u64::from(a) * u64::from(b) >> 32) as u32
}

/// `a` shifted left by `b` modulo 32, as of `sllv`.
#[tactic(auto, unfolding(crate::specs::Words::word_shift_left))]
pub fn shift_left(a: u32, b: u32) -> u32
    ensures { result ≡ word_shift_left a b }
{
    a.wrapping_shl(b)
}

/// `a` shifted right by `b` modulo 32, zeros in, as of `srlv`.
#[tactic(auto, unfolding(crate::specs::Words::word_shift_right))]
pub fn shift_right(a: u32, b: u32) -> u32
    ensures { result ≡ word_shift_right a b }
{
    a.wrapping_shr(b)
}

/// `a` shifted right by `b` modulo 32, its sign in, as of `srav`.
pub fn shift_right_signed(a: u32, b: u32) -> u32
    ensures { result ≡ word_shift_right_signed a b }
{
    a.cast_signed().wrapping_shr(b).cast_unsigned()
}

/// 1 where `a` is less than `b`, both read as signed, else 0, as of `slt`.
#[tactic(auto, unfolding(crate::specs::Words::word_less))]
pub fn less(a: u32, b: u32) -> u32
    ensures { result ≡ word_less a b }
{
    u32::from(a.cast_signed() < b.cast_signed())
}

/// 1 where `a` is less than `b`, else 0, as of `sltu`.
#[tactic(auto, unfolding(crate::specs::Words::word_less_unsigned))]
pub fn less_unsigned(a: u32, b: u32) -> u32
    ensures { result ≡ word_less_unsigned a b }
{
    u32::from(a < b)
}

/// How many zero bits lead in a word, 32 for 0, as of `clz`.
pub fn leading_zeros(a: u32) -> u32
    ensures { result ≡ word_leading_zeros a }
{
    a.leading_zeros()
}

/// How many bits of a word are 1, as of `popc`.
pub fn ones(a: u32) -> u32
    ensures { result ≡ word_ones a }
{
    a.count_ones()
}

/// The word of an immediate or a half word that is read with its sign: bit 15 fills the high half.
pub fn sign_extended(half: u16) -> u32
    ensures { result ≡ sign_extended half }
{
    let word = u32::from(half);
    if word < 0x8000 {
        word
    } else {
        word + 0xffff_0000
    }
}

/// The word of a byte that is read with its sign: bit 7 fills the other bits.
pub fn sign_extended_byte(byte: u8) -> u32
    ensures { result ≡ sign_extended_byte byte }
{
    let word = u32::from(byte);
    if word < 0x80 {
        word
    } else {
        word + 0xffff_ff00
    }
}
