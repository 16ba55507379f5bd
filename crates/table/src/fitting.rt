// Whether a table is fit.
ghost use Rattle.std.specs.Prelude.{◌≡◌, true, ◌&&◌, ◌+◌, ◌*◌, ◌/◌, ◌%◌, ◌^◌, ◌≤◌, ◌<◌, ltb, length};
ghost use Rattle.kmer.specs.Kmer.{ok_k, is_canon, rc};
ghost use Rattle.kmer.specs.Says.{value_of};
ghost use Rattle.state.specs.Says.{kind_of};
ghost use Rattle.graph.specs.Table.{keys_of, fit_from};
ghost use Rattle.table.specs.Bounds.{bound_of, unit_of, Bounds};
ghost use Rattle.table.specs.Calls.{fit_call, fit_answer};

use super::search::key_at;
use super::words::words_fit;
use super::{FitError, capacity};
use kmer::Kmer;
use state::EdgeKind;

// Four bases turned: their reverse complement.
fn turned(byte: u8) -> u8
    ensures { result ≡ rc 4 byte }
{
    let pairs = ((byte & 0x33) << 2) | ((byte >> 2) & 0x33);
    !((pairs << 4) | (pairs >> 4))
}

// The word of a bound that is compared, with four bases turned at their place in it: up to K = 32 the low word, up to
// K = 35 all but the last three bases, else the high word. A bound ends with K - 4 As, so that nothing of it is left
// out. 0 where K is below 5.
fn bound(k: usize, byte: u8) -> u64
    requires { ok_k k ≡ true }
    ensures { result * unit_of k ≡ bound_of k byte }
{
    let first = turned(byte) as u64;
    match k {
        0..5 => 0,
        5..=32 => first << (2 * k - 8),
        33..=35 => first << (2 * k - 14),
        _ => first << (2 * k - 72),
    }
}

// The bounds of all last four bases, each as the word that is compared.
fn make_bounds(k: usize, bounds: &mut [u64; 256])
    requires { ok_k k ≡ true }
    ensures { Bounds k bounds.new }
{
    for (b, cell) in bounds.iter_mut().enumerate() {
        *cell = bound(k, b as u8);
    }
}

// A k-mer is below 4 to the K and canonical. Not inlined, so that the compiler makes a loop of each case of K.
#[inline(never)]
fn is_key(k: usize, x: Kmer) -> bool
    requires { ok_k k ≡ true }
    ensures { result ≡ ltb (value_of x) (4 ^ k) && is_canon k (value_of x) }
{
    matches!(x.is_canonical(k), Ok(true))
}

// The last four bases of a k-mer.
fn last_four(l: u64) -> usize
    ensures { result ≡ l % 256 }
{
    (l & 0xff) as usize
}

// A k-mer of at most 35 bases without its last three: one word.
fn but_three(l: u64, h: u64) -> u64
    ensures { result ≡ h % 64 * 2 ^ 58 + l / 64 }
{
    (l >> 6) | (h << 58)
}

// The bound of its last four bases tells that a k-mer of more than 32 bases is a key: below it, it begins before its
// reverse complement does. From K = 36 on the low words don't matter, since that of a bound is 0; up to K = 35 the last
// three bases don't.
fn is_told(k: usize, x: Kmer, bounds: &[u64; 256]) -> bool
    requires { (32 < k) × Bounds k bounds.now }
    ensures { result ≡ true → ltb (value_of x) (4 ^ k) && is_canon k (value_of x) ≡ true }
{
    let [l, h] = x.words;
    let bound = bounds[last_four(l)];
    if 35 < k {
        h < bound
    } else {
        h < 64 && but_three(l, h) < bound
    }
}

// The same as `follows` for K up to 32, where a key is its low word: a k-mer with a high word is too large.
fn low_follows(k: usize, low: u64, x: Kmer, bounds: &[u64; 256]) -> bool
    requires { (ok_k k ≡ true) × (k ≤ 32) × Bounds k bounds.now }
    ensures { result ≡ ltb low (value_of x) && ltb (value_of x) (4 ^ k) && is_canon k (value_of x) }
{
    let [l, h] = x.words;
    h == 0 && low < l && (l < bounds[last_four(l)] || is_key(k, x))
}

// x is a key, and above the key before it. So most keys are told without their reverse complements.
fn follows(k: usize, before: Kmer, x: Kmer, bounds: &[u64; 256]) -> bool
    requires { (ok_k k ≡ true) × (value_of before < 4 ^ k) × Bounds k bounds.now }
    ensures { result ≡ ltb (value_of before) (value_of x) && ltb (value_of x) (4 ^ k) && is_canon k (value_of x) }
{
    if k <= 32 {
        low_follows(k, before.words[0], x, bounds)
    } else {
        before.is_less(x) && (is_told(k, x, bounds) || is_key(k, x))
    }
}

// The first k-mer is a key, and each other one follows the one before it. The cases of K are asked of each key: the
// compiler makes a loop of each.
fn all_fit(k: usize, n: usize, keys: &[u64], bounds: &[u64; 256]) -> bool
    requires { (ok_k k ≡ true) × (0 < n) × (n ≤ length keys.now / 2) × Bounds k bounds.now }
    ensures { result ≡ fit_from k 0 (keys_of n keys.now) }
{
    let mut before = key_at(keys, 0);
    if !is_key(k, before) {
        return false;
    }
    for i in 1..n {
        let x = key_at(keys, i);
        if !follows(k, before, x, bounds) {
            return false;
        }
        before = x;
    }
    true
}

fn keys_fit(k: usize, n: usize, keys: &[u64]) -> bool
    requires { (ok_k k ≡ true) × (n ≤ length keys.now / 2) }
    ensures { result ≡ fit_from k 0 (keys_of n keys.now) }
{
    if n == 0 {
        return true;
    }
    let mut bounds = [0u64; 256];
    make_bounds(k, &mut bounds);
    all_fit(k, n, keys, &bounds)
}

// K is tested first, then the room, the keys, the words.
pub fn fit(kind: EdgeKind, k: usize, n: usize, keys: &[u64], counts: &[u32]) -> Result<(), FitError>
    ensures { fit_answer result ≡ fit_call (kind_of kind) k n keys.now counts.now }
{
    if k == 0 || 63 < k {
        return Err(FitError::UnsupportedK(k));
    }
    if n <= capacity(keys, counts) && keys_fit(k, n, keys) && words_fit(kind, n, counts) {
        return Ok(());
    }
    Err(FitError::Unfit)
}
