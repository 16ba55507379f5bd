// A k-mer's leading bases.
ghost use Rattle.std.specs.Prelude.{◌≡◌, ◌/◌, ◌%◌, ◌^◌, ◌<◌, ◌≤◌};
ghost use Rattle.kmer.specs.Says.{value_of};
ghost use Rattle.directory.specs.Directory.{bases_of, slot_of};

use kmer::Kmer;

// How many leading bases a directory of so many cells tells apart.
pub(crate) fn bases_of(cells: usize) -> usize
    ensures { result ≡ bases_of cells }
{
    // By jumps: a `match` or an `else if` becomes selections, for which a look-up waits (3 % longer or more).
    if 16384 < cells {
        return 7;
    }
    if 4096 < cells {
        return 6;
    }
    if 1024 < cells { 5 } else { 0 }
}

// The last b bases of a word.
fn last_bases(word: u64, b: usize) -> usize
    requires { b ≤ 7 }
    ensures { result ≡ word % 4 ^ b }
{
    (word & ((1u64 << (2 * b)) - 1)) as usize
}

// The b bases of a k-mer with so many bits behind them.
fn bases_before(x: Kmer, shift: usize, b: usize) -> usize
    requires { (shift < 128) × (b ≤ 7) }
    ensures { result ≡ value_of x / 2 ^ shift % 4 ^ b }
{
    let [low, high] = x.words;
    match shift {
        0 => last_bases(low, b),
        1..64 => last_bases((low >> shift) | (high << (64 - shift)), b),
        _ => last_bases(high >> (shift - 64), b),
    }
}

// The first b bases of a k-mer, or all where there are fewer.
pub(crate) fn slot_of(k: usize, b: usize, x: Kmer) -> usize
    requires { b ≤ 7 }
    ensures { result ≡ slot_of b k (value_of x) }
{
    if k <= b {
        return bases_before(x, 0, b);
    }
    if 63 < k - b {
        return 0;
    }
    bases_before(x, 2 * (k - b), b)
}
