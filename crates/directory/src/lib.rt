// A directory of a table's keys: where to look for a k-mer first. It is a hint and no more: what is found by it is
// tested, and where the test fails all keys are searched, so that over a fit table the answer is right whatever the
// directory says.
#![tactic(auto)]

ghost use Rattle.std.specs.Prelude.{◌≡◌, ◌/◌, ◌≤◌, ◌<◌, length};
ghost use Rattle.kmer.specs.Says.{value_of};
ghost use Rattle.graph.specs.Table.{keys_of};
ghost use Rattle.table.specs.Search.{key};
ghost use Rattle.directory.specs.Directory.{cells_for, before, stands, find_by};

use kmer::Kmer;

mod making;
mod slots;

pub use making::make;

// How large a directory of n keys is worth its making.
pub fn cells_for(n: usize) -> usize
    ensures { result ≡ cells_for n }
{
    match n {
        0..=2048 => 1025,
        2049..=8192 => 4097,
        _ => 16385,
    }
}

// Key i; private, as table's, since a public one would have a `requires`.
fn key_at(keys: &[u64], i: usize) -> Kmer
    requires { i < length keys.now / 2 }
    ensures { value_of result ≡ key keys.now i }
{
    Kmer {
        words: [keys[2 * i], keys[2 * i + 1]],
    }
}

// x is below the one at place i of the first n keys, if there is one.
fn is_before(n: usize, keys: &[u64], i: usize, x: Kmer) -> bool
    ensures { result ≡ before (keys_of n keys.now) (value_of x) i }
{
    n.min(keys.len() / 2) <= i || x.is_less(key_at(keys, i))
}

// Of the first n keys the one at place i, if there is one, is above x, and the one before it below.
fn is_between(n: usize, keys: &[u64], i: usize, x: Kmer) -> bool
    requires { i ≤ length (keys_of n keys.now) }
    ensures { result ≡ stands (keys_of n keys.now) (value_of x) (Err i) }
{
    is_before(n, keys, i, x) && (i == 0 || key_at(keys, i - 1).is_less(x))
}

// Where x stands among the first n keys, as far as there are so many; else where it would be put in.
pub fn find(k: usize, n: usize, keys: &[u64], directory: &[u32], x: Kmer) -> Result<usize, usize>
    ensures { result ≡ find_by k (keys_of n keys.now) directory.now (value_of x) }
{
    let b = slots::bases_of(directory.len());
    if b == 0 {
        return table::find(n, keys, x);
    }
    let t = slots::slot_of(k, b, x);
    let lo = directory[t] as usize;
    let hi = directory[t + 1] as usize;
    match table::find_between(n, keys, lo, hi, x) {
        Ok(i) => Ok(i),
        Err(i) if is_between(n, keys, i, x) => Err(i),
        Err(_) => table::find(n, keys, x),
    }
}
