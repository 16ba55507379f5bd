// The labels written, end to end.
ghost use Rattle.std.specs.Prelude.{◌≡◌, true, ◌+◌, ◌^◌, ◌≤◌, ◌<◌, length, drop};
ghost use Rattle.std.proofs.Math.Seq.{paste};
ghost use Rattle.dna.specs.Text.{part};
ghost use Rattle.dna.specs.Letters.{reverse_complement};
ghost use Rattle.kmer.specs.Kmer.{ok_k, letters};
ghost use Rattle.kmer.specs.Says.{value_of};
ghost use Rattle.graph.specs.Labels.{lesser};
ghost use Rattle.graph.specs.Contraction.{end_to_end};
ghost use Rattle.marks.specs.Ready.{Ready};
ghost use Rattle.contraction.specs.Over.{run_in};
ghost use Rattle.contraction.specs.Says.{WritesLabel, Writes, Roomy};
ghost use Rattle.contraction.specs.Trail.{Ended, letter_count, Piece, label_from, Trails};

use super::{CLOSED, Label, SKIPPED, step};
use kmer::Kmer;

// A k-mer's letters from a place of the buffer on.
fn put_letters(k: usize, x: Kmer, buffer: &mut [u8], at: usize)
    requires { (ok_k k ≡ true) × (value_of x < 4 ^ k) × (at + k ≤ length buffer.old) }
    ensures { buffer.new ≡ paste buffer.old at (letters k (value_of x)) k }
{
    let _written = x.append_ascii(k, &mut buffer[at..at + k]);
}

// A part of the buffer made the smaller of its strands.
fn canonicalize_part(buffer: &mut [u8], at: usize, n: usize)
    requires { at + n ≤ length buffer.old }
    ensures { buffer.new ≡ paste buffer.old at (lesser (part buffer.old at n)) n }
{
    strands::canonical_label(&mut buffer[at..at + n]);
}

// How many letters a walk has in the trail, up to the byte that ends it: a letter is above all three bytes that are
// none.
fn walk_length(trail: &[u8], from: usize) -> usize
    requires { Ended (drop from trail.now) }
    ensures { result ≡ letter_count (drop from trail.now) }
{
    trail[from..]
        .iter()
        .take_while(|byte| SKIPPED < **byte)
        .count()
}

// A walk's letters copied from the trail.
fn copy_walk(trail: &[u8], from: usize, n: usize, buffer: &mut [u8], at: usize)
    requires { (from + n ≤ length trail.now) × (at + n ≤ length buffer.old) }
    ensures { buffer.new ≡ paste buffer.old at (part trail.now from n) n }
{
    buffer[at..at + n].copy_from_slice(&trail[from..from + n]);
}

// A walk's letters copied as they are on the other strand.
fn copy_turned(trail: &[u8], from: usize, n: usize, buffer: &mut [u8], at: usize)
    requires { (from + n ≤ length trail.now) × (at + n ≤ length buffer.old) }
    ensures { buffer.new ≡ paste buffer.old at (reverse_complement (part trail.now from n)) n }
{
    copy_walk(trail, from, n, buffer, at);
    strands::turn(&mut buffer[at..at + n]);
}

// An anchor's label, made in its place: the Front walk on the other strand, the anchor's k-mer, the Back walk; or,
// where the Back walk closed, the k-mer and the Back walk.
fn write_label(k: usize, x: Kmer, trail: &[u8], from: usize, buffer: &mut [u8], at: usize) -> Label
    requires { (ok_k k ≡ true) × (value_of x < 4 ^ k) × Piece (drop from trail.now)
        × (at + length (label_from k (value_of x) (drop from trail.now)) ≤ length buffer.old) }
    ensures { WritesLabel k (value_of x) trail.now from result buffer.old at buffer.new }
{
    let back = walk_length(trail, from);
    let stop = from + back;
    if trail[stop] == CLOSED {
        put_letters(k, x, buffer, at);
        copy_walk(trail, from, back, buffer, at + k);
        canonicalize_part(buffer, at, k + back);
        return Label {
            bases: k + back,
            end: stop + 1,
        };
    }
    let front = walk_length(trail, stop + 1);
    copy_turned(trail, stop + 1, front, buffer, at);
    put_letters(k, x, buffer, at + front);
    copy_walk(trail, from, back, buffer, at + front + k);
    canonicalize_part(buffer, at, front + k + back);
    Label {
        bases: front + k + back,
        end: stop + front + 2,
    }
}

// The labels of all anchors with their starts and lengths; how many they are.
pub(crate) fn write_labels(
    k: usize,
    keys: &[u64],
    marks: &[u8],
    trail: &[u8],
    buffer: &mut [u8],
    starts: &mut [u32],
    lengths: &mut [u32],
) -> usize
    requires { Ready k keys.now marks.now × Trails k keys.now marks.now trail.now
        × Roomy k keys.now marks.now (length buffer.old) (length starts.old) (length lengths.old) }
    ensures { Writes k keys.now marks.now (length marks.now) result
        (length (end_to_end (run_in k keys.now marks.now (length marks.now)).labels))
        buffer.old buffer.new starts.old starts.new lengths.old lengths.new }
{
    let mut labels: usize = 0;
    let mut at: usize = 0;
    let mut from: usize = 0;
    for a in 0..marks.len() {
        if trail[from] == SKIPPED {
            from += 1;
            continue;
        }
        let label = write_label(k, step::key_at(keys, a), trail, from, buffer, at);
        starts[labels] = at as u32;
        lengths[labels] = label.bases as u32;
        labels += 1;
        at += label.bases;
        from = label.end;
    }
    labels
}
