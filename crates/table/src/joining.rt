// Vertices put in among those of a table, each at its place.
ghost use Rattle.std.specs.Prelude.{◌≡◌, true, ◌+◌, ◌-◌, ◌*◌, ◌/◌, ◌≤◌, ◌<◌, length, set, take, drop};
ghost use Rattle.std.proofs.Math.Seq.{paste};
ghost use Rattle.dna.specs.Text.{over};
ghost use Rattle.graph.specs.Table.{keys_of, words_of};
ghost use Rattle.table.specs.Join.{rising, put_in, join_call, Joins};

use super::{JoinError, capacity};

// Whether the first m places do not fall and none is above n.
fn rises(n: usize, m: usize, places: &[u32]) -> bool
    requires { m ≤ length places.now }
    ensures { result ≡ rising n 0 (take m places.now) }
{
    let mut least = 0;
    for place in &places[..m] {
        if *place < least || n < *place as usize {
            return false;
        }
        least = *place;
    }
    true
}

fn put_key(keys: &mut [u64], at: usize, low: u64, high: u64)
    requires { at < length keys.old / 2 }
    ensures { keys.new ≡ set (set keys.old (2 * at) low) (2 * at + 1) high }
{
    keys[2 * at] = low;
    keys[2 * at + 1] = high;
}

// The last of m keys first: what stands from its place on moves up once, to where it stays.
fn join_keys(n: usize, keys: &mut [u64], m: usize, places: &[u32], new_keys: &[u64])
    requires { (n + m ≤ length keys.old / 2) × (m ≤ length places.now) × (m ≤ length new_keys.now / 2)
        × (rising n 0 (take m places.now) ≡ true) }
    ensures { keys.new ≡ over (words_of
        (put_in (take m places.now) (keys_of m new_keys.now) (keys_of n keys.old))) keys.old }
{
    let mut end = n;
    for j in (0..m).rev() {
        let place = places[j] as usize;
        keys.copy_within(2 * place..2 * end, 2 * (place + j + 1));
        put_key(keys, place + j, new_keys[2 * j], new_keys[2 * j + 1]);
        end = place;
    }
}

// The counts of the same vertices.
fn join_counts(n: usize, counts: &mut [u32], m: usize, places: &[u32], new_counts: &[u32])
    requires { (n + m ≤ length counts.old) × (m ≤ length places.now) × (m ≤ length new_counts.now)
        × (rising n 0 (take m places.now) ≡ true) }
    ensures { counts.new ≡ over (put_in (take m places.now) (take m new_counts.now) (take n counts.old)) counts.old }
{
    let mut end = n;
    for j in (0..m).rev() {
        let place = places[j] as usize;
        counts.copy_within(place..end, place + j + 1);
        counts[place + j] = new_counts[j];
        end = place;
    }
}

// m vertices, their keys and counts, put in at places of the first n, each place counted before any is put in.
pub fn join(
    n: usize,
    keys: &mut [u64],
    counts: &mut [u32],
    m: usize,
    places: &[u32],
    new_keys: &[u64],
    new_counts: &[u32],
) -> Result<usize, JoinError>
    ensures { Joins result keys.new counts.new
        (join_call n keys.old counts.old m places.now new_keys.now new_counts.now) }
{
    if capacity(new_keys, new_counts) < m || places.len() < m || !rises(n, m, places) {
        return Err(JoinError::Misplaced);
    }
    let room = capacity(keys, counts);
    if room < m || room - m < n {
        return Err(JoinError::Full);
    }
    join_keys(n, keys, m, places, new_keys);
    join_counts(n, counts, m, places, new_counts);
    Ok(n + m)
}
