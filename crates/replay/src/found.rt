// The pieces of a case that are compared with what the library left: whether they are the same. `None` says that the
// file ends in the piece, or that the piece does not fit its buffer.
use super::read::Data;

pub fn bytes(data: &mut Data<'_>, n: usize, ours: &[u8]) -> Option<bool> {
    let theirs = data.bytes(n)?;
    Some(theirs == ours.get(..n)?)
}

// Cells, of which `next` gives what is recorded.
fn cells<T: Copy + PartialEq, N: FnMut() -> Option<T>>(ours: &[T], mut next: N) -> Option<bool>
    requires { N.IsAlwaysCallable next }
{
    let mut same = true;
    for cell in ours {
        same &= next()? == *cell;
    }
    Some(same)
}

// The keys and the counts of a table.
pub fn table(data: &mut Data<'_>, n: usize, keys: &[u64], counts: &[u32]) -> Option<bool> {
    let keys = cells(keys.get(..n.checked_mul(2)?)?, || data.word())?;
    let counts = cells(counts.get(..n)?, || data.cell())?;
    Some(keys & counts)
}

// The first entries of an index, recorded in two bytes each.
pub fn index(data: &mut Data<'_>, n: usize, starts: &[u32], lengths: &[u32]) -> Option<bool> {
    let starts = cells(starts.get(..n)?, || data.short())?;
    let lengths = cells(lengths.get(..n)?, || data.short())?;
    Some(starts & lengths)
}
