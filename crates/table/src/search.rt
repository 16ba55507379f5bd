// Binary search.
ghost use Rattle.std.specs.Prelude.{◌≡◌, ℕ, ◌/◌, ◌≤◌, ◌<◌, length};
ghost use Rattle.kmer.specs.Says.{value_of};
ghost use Rattle.graph.specs.Table.{keys_of};
ghost use Rattle.table.specs.Search.{key, place_between, find_between, find_in};

use kmer::Kmer;

// Key i. Each crate that reads keys has its own: a public one would have a `requires`, and no public function has one.
pub(crate) fn key_at(keys: &[u64], i: usize) -> Kmer
    requires { i < length keys.now / 2 }
    ensures { value_of result ≡ key keys.now i }
{
    Kmer {
        words: [keys[2 * i], keys[2 * i + 1]],
    }
}

// The places from one up to another halved until one is left: the first whose key is not below x, where keys ascend.
fn place_of(lo: usize, hi: usize, keys: &[u64], x: Kmer) -> usize
    requires { (lo ≤ hi) × (hi ≤ length keys.now / 2) }
    ensures { (n : ℕ) → hi ≤ length (keys_of n keys.now)
        → result ≡ place_between (keys_of n keys.now) lo hi (value_of x) }
{
    let mut first = lo;
    let mut end = hi;
    while first < end {
        let middle = first + (end - first) / 2;
        if key_at(keys, middle).is_less(x) {
            first = middle + 1;
        } else {
            end = middle;
        }
    }
    first
}

// Where x stands between two places of the first n keys, as far as there are so many; else where it would be put in.
pub fn find_between(n: usize, keys: &[u64], lo: usize, hi: usize, x: Kmer) -> Result<usize, usize>
    ensures { result ≡ find_between (keys_of n keys.now) lo hi (value_of x) }
{
    let end = hi.min(n).min(keys.len() / 2);
    let i = place_of(lo.min(end), end, keys, x);
    if i < end && key_at(keys, i).is_same(x) {
        Ok(i)
    } else {
        Err(i)
    }
}

// Where x stands among the first n keys, as far as there are so many; else where it would be put in.
pub fn find(n: usize, keys: &[u64], x: Kmer) -> Result<usize, usize>
    ensures { result ≡ find_in (keys_of n keys.now) (value_of x) }
{
    find_between(n, keys, 0, n, x)
}
