// One word: the base that enters as the others move.
ghost use Rattle.std.specs.Prelude.{◌≡◌, ◌+◌, ◌*◌, ◌/◌, ◌%◌, ◌^◌, ◌<◌};

// A word moved up one base, with the base that enters below.
pub(crate) fn push_low(word: u64, bits: u64) -> u64
    requires { bits < 4 }
    ensures { result ≡ (4 * word + bits) % 2 ^ 64 }
{
    (word << 2) | bits
}

// A word moved down one base; the last base of the word above it enters at the top.
pub(crate) fn push_high(word: u64, above: u64) -> u64
    ensures { result ≡ above % 4 * 2 ^ 62 + word / 4 }
{
    (above << 62) | (word >> 2)
}
