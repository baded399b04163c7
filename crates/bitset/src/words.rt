// One word: its bits, a bit set or left out, the bits of one word outside another, the lowest bit, the first bits.
ghost use Rattle.std.specs.Prelude.{◌≡◌, ◌<◌};
ghost use Rattle.bitset.specs.Words.{bit, WithBit, WithBitIf, BitAssigned, Without, WithoutBit, Lowest, BitsBelow, FirstBits};

pub fn has_bit(word: u64, j: usize) -> bool
    requires { j < 64 }
    ensures { result ≡ bit word j }
{
    (word >> j) % 2 == 1
}

pub fn with_bit(word: u64, j: usize) -> u64
    requires { j < 64 }
    ensures { WithBit word j result }
{
    word | (1u64 << j)
}

pub fn with_bit_if(word: u64, j: usize, there: bool) -> u64
    requires { j < 64 }
    ensures { WithBitIf word j there result }
{
    if there { with_bit(word, j) } else { word }
}

// The bits of a word that another doesn't have.
pub fn without(word: u64, other: u64) -> u64
    ensures { Without word other result }
{
    word & (word ^ other)
}

pub fn without_bit(word: u64, j: usize) -> u64
    requires { j < 64 }
    ensures { WithoutBit word j result }
{
    without(word, with_bit(0, j))
}

// A word with bit j set or left out.
pub fn assign_bit(word: u64, j: usize, there: bool) -> u64
    requires { j < 64 }
    ensures { BitAssigned word j there result }
{
    if there {
        with_bit(word, j)
    } else {
        without_bit(word, j)
    }
}

// The lowest bit of a word that has one.
pub fn lowest_bit(word: u64) -> usize
    requires { 0 < word }
    ensures { Lowest word result }
{
    u64::trailing_zeros(word) as usize
}

// The word of the bits below n.
pub fn first_bits(n: usize) -> u64
    requires { n < 64 }
    ensures { FirstBits n result }
{
    (1u64 << n) - 1
}

// The bits of a word below n.
pub fn bits_below(word: u64, n: usize) -> u64
    ensures { BitsBelow word n result }
{
    if n < 64 { word & first_bits(n) } else { word }
}
