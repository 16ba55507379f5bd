// A directory made.
ghost use Rattle.std.specs.Prelude.{◌≡◌, ◌/◌, ◌^◌, ◌<◌, ◌≤◌, min, length};
ghost use Rattle.graph.specs.Table.{keys_of};
ghost use Rattle.directory.specs.Directory.{slot_of, tallied, spread, directory_of};

use super::{key_at, slots};

// Beside each slot, one cell further on, the number of keys up to the last that is in it.
fn tally(k: usize, b: usize, n: usize, keys: &[u64], directory: &mut [u32])
    requires { (b ≤ 7) × (n ≤ 65536) × (n ≤ length keys.now / 2) × (4 ^ b < length directory.old) }
    ensures { directory.new ≡ tallied (slot_of b k) 0 (keys_of n keys.now) directory.old }
{
    for i in 0..n {
        let t = slots::slot_of(k, b, key_at(keys, i));
        directory[t + 1] = (i + 1) as u32;
    }
}

// A slot that no key is in has the number of the slot before.
fn fill_gaps(directory: &mut [u32])
    ensures { directory.new ≡ spread 0 directory.old }
{
    let mut most = 0;
    for cell in directory.iter_mut() {
        most = most.max(*cell);
        *cell = most;
    }
}

// The directory of the first n keys, as far as there are so many, at most 65,536; cells that are 0 before are best.
// Nothing where there are 1,024 cells or fewer.
pub fn make(k: usize, n: usize, keys: &[u64], directory: &mut [u32])
    ensures { directory.new ≡ directory_of k (keys_of (min n 65536) keys.now) directory.old }
{
    let b = slots::bases_of(directory.len());
    if 0 < b {
        let end = n.min(65536).min(keys.len() / 2);
        tally(k, b, end, keys, directory);
        fill_gaps(directory);
    }
}
