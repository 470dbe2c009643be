ghost use Rattle.std.specs.Prelude.{◌≡◌, ℕ, ◌+◌, ◌<◌, ◌≤◌, ◌^◌, true, false, ◌&&◌, not};
ghost use Rattle.zk_player_set.specs.Players.{word_bits, has_bit, with_bit, without_bit};

/// The bits of a word of players.
pub const WORD_BITS: u32 = u64::BITS;

/// The word with this bit alone.
fn bit_of(bit: u32) -> u64
    requires { bit < word_bits }
    ensures { result ≡ 2 ^ bit }
{
    1 << bit
}

/// The bit is set.
pub fn has_bit(word: u64, bit: u32) -> bool
    requires { bit < word_bits }
    ensures { result ≡ has_bit word bit }
{
    word & bit_of(bit) != 0
}

/// The same word with the bit set.
pub fn with_bit(word: u64, bit: u32) -> u64
    requires { bit < word_bits }
    ensures { result ≡ with_bit word bit }
{
    word | bit_of(bit)
}

/// The same word without the bit.
pub fn without_bit(word: u64, bit: u32) -> u64
    requires { bit < word_bits }
    ensures { result ≡ without_bit word bit }
{
    word & !bit_of(bit)
}

/// The same word without the bits of another.
pub fn without_bits(word: u64, other: u64) -> u64
    ensures { (bit : ℕ) → bit < word_bits → has_bit result bit ≡ (has_bit word bit && not (has_bit other bit)) }
{
    word & !other
}

/// How many bits from this one on are set: up to the first that isn't.
pub fn ones_from(word: u64, bit: u32) -> u32
    requires { bit < word_bits }
    ensures within { bit + result ≤ word_bits }
    ensures ones { (other : ℕ) → bit ≤ other → other < bit + result → has_bit word other ≡ true }
    ensures end { bit + result < word_bits → has_bit word (bit + result) ≡ false }
{
    let rest = word >> bit;
    if rest == u64::MAX {
        return WORD_BITS;
    }
    rest.trailing_ones()
}

/// How many bits from this one on aren't set: up to the first that is.
pub fn zeros_from(word: u64, bit: u32) -> u32
    requires { bit < word_bits }
    ensures within { bit + result ≤ word_bits }
    ensures zeros { (other : ℕ) → bit ≤ other → other < bit + result → has_bit word other ≡ false }
    ensures end { bit + result < word_bits → has_bit word (bit + result) ≡ true }
{
    ones_from(!word, bit)
}
