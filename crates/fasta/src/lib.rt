// The list of labels as FASTA.
#![tactic(auto)]

ghost use Rattle.std.specs.Prelude.{◌≡◌, true, ◌+◌, ◌≤◌, leb, length};
ghost use Rattle.dna.specs.Text.{over};
ghost use Rattle.label_index.specs.Entries.{listed, within};
ghost use Rattle.graph.specs.Fasta.{record_of, records_of, fasta};
ghost use Rattle.fasta.specs.Sizes.{size_of};
ghost use Rattle.fasta.specs.Says.{Lists};

use label_index::{lie_within, wide};

// The text exceeds its slice; an index slice is shorter than the count, or an entry lies past the labels.
#[derive(Clone, Copy, PartialEq, Eq, Debug)]
pub enum FastaError {
    NoRoom,
    OutOfLabels,
}

// The records of the first count entries have room. What is left of the room is counted down, so that no sum can wrap.
fn has_room(lengths: &[u32], count: usize, room: usize) -> bool
    requires { count ≤ length lengths.now }
    ensures { result ≡ leb (size_of count lengths.now) room }
{
    let mut left = room;
    for length in &lengths[..count] {
        let size = wide(*length) + 4;
        if left < size {
            return false;
        }
        left -= size;
    }
    true
}

// The record of one label, from the first cell on; its size. The letters by a loop: `copy_from_slice` would want
// `memmove` of whoever links the library.
fn write_record(label: &[u8], out: &mut [u8]) -> usize
    requires { length label.now + 4 ≤ length out.old }
    ensures { (result ≡ length label.now + 4) × (out.new ≡ over (record_of label.now) out.old) }
{
    let n = label.len();
    out[..3].copy_from_slice(b">0\n");
    for i in 0..n {
        out[3 + i] = label[i];
    }
    out[3 + n] = b'\n';
    n + 4
}

// The records of the first count entries, one behind the other; their size.
fn write_records(
    labels: &[u8],
    starts: &[u32],
    lengths: &[u32],
    count: usize,
    out: &mut [u8],
) -> usize
    requires { (within labels.now count starts.now lengths.now ≡ true)
        × (size_of count lengths.now ≤ length out.old) }
    ensures { (result ≡ size_of count lengths.now)
        × (out.new ≡ over (records_of (listed count labels.now starts.now lengths.now)) out.old) }
{
    let mut at = 0;
    for (start, length) in starts[..count].iter().zip(&lengths[..count]) {
        let start = wide(*start);
        let end = start + wide(*length);
        at += write_record(&labels[start..end], &mut out[at..]);
    }
    at
}

// `>0`, newline, label, newline for each of the first count entries of the index, from out's first cell on; the bytes
// written.
pub fn write_fasta(
    labels: &[u8],
    starts: &[u32],
    lengths: &[u32],
    count: usize,
    out: &mut [u8],
) -> Result<usize, FastaError>
    ensures { Lists result out.new (fasta labels.now starts.now lengths.now count out.old) }
{
    if !lie_within(labels, starts, lengths, count) {
        return Err(FastaError::OutOfLabels);
    }
    if !has_room(lengths, count, out.len()) {
        return Err(FastaError::NoRoom);
    }
    Ok(write_records(labels, starts, lengths, count, out))
}
