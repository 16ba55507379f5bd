// Probes for a panel: of each label of a list, the first part of a stated length of which neither too few nor too
// many bases are G or C. Labels and their index are all that is known here; for which lists no two probes have a
// k-mer in common is said in the crate `demands`.
#![tactic(auto)]

ghost use Rattle.std.specs.Prelude.{◌≡◌, ◌^◌, ◌<◌, ◌≤◌, true, length, unwrap_or};
ghost use Rattle.dna.specs.Text.{over};
ghost use Rattle.label_index.specs.Entries.{within};
ghost use Rattle.panel.specs.Probes.{gc_of, gc_in, between, first_probe};
ghost use Rattle.panel.specs.Panel.{in_profile, first_starts, panel};
ghost use Rattle.panel.specs.Says.{Panels};

use label_index::{lie_within, wide};

// The answer for a label without a probe: no start is so large.
pub const NONE: u32 = 0xffff_ffff;

// K, cutoff or length outside the profile; least above most or most above the length; an index slice is shorter than
// the count, or an entry lies past the labels; the answers exceed their slice.
#[derive(Clone, Copy, PartialEq, Eq, Debug)]
pub enum PanelError {
    OutOfProfile,
    WrongBounds,
    OutOfLabels,
    NoRoom,
}

// 1 where a byte is G or C, else 0.
fn gc(byte: u8) -> usize
    ensures { (result ≡ gc_of byte) × (result ≤ 1) }
{
    usize::from(matches!(byte, b'G' | b'C'))
}

// How many bytes are G or C.
fn gc_in(text: &[u8]) -> usize
    ensures { result ≡ gc_in text.now }
{
    text.iter().map(|byte| gc(*byte)).sum()
}

// A number lies between two in order, or is one of them, by one comparison: what is below the first wraps round to
// above the second.
fn in_bounds(least: usize, held: usize, most: usize) -> bool
    requires { least ≤ most }
    ensures { result ≡ between least held most }
{
    held.wrapping_sub(least) <= most - least
}

// The first start of a probe in a label: the number of G and C in the part looked at is kept up as the part moves on.
fn first_probe(label: &[u8], probe: usize, least: usize, most: usize) -> Option<u32>
    requires { (0 < probe) × (least ≤ most) × (length label.now < 2 ^ 32) }
    ensures { unwrap_or result NONE ≡ first_probe probe least most label.now }
{
    if label.len() < probe {
        return None;
    }
    let last = label.len() - probe;
    let mut held = gc_in(&label[..probe]);
    for at in 0..last {
        if in_bounds(least, held, most) {
            return Some(at as u32);
        }
        held = held + gc(label[at + probe]) - gc(label[at]);
    }
    if in_bounds(least, held, most) {
        return Some(last as u32);
    }
    None
}

// K is odd and from 15 to 31, the cutoff from 2 to 15, a probe has from K to 63 bases.
fn in_profile(k: usize, cutoff: u32, probe: usize) -> bool
    ensures { result ≡ in_profile k cutoff probe }
{
    k % 2 == 1 && (15..=31).contains(&k) && (2..=15).contains(&cutoff) && (k..=63).contains(&probe)
}

// The first starts of probes in the first count labels, from the slice's first cell on.
fn answer_each(
    probe: usize,
    least: usize,
    most: usize,
    labels: &[u8],
    starts: &[u32],
    lengths: &[u32],
    count: usize,
    out: &mut [u32],
)
    requires { (0 < probe) × (least ≤ most) × (within labels.now count starts.now lengths.now ≡ true)
        × (count ≤ length out.old) }
    ensures { out.new ≡ over (first_starts probe least most
        labels.now starts.now lengths.now count) out.old }
{
    for i in 0..count {
        let start = wide(starts[i]);
        let end = start + wide(lengths[i]);
        out[i] = first_probe(&labels[start..end], probe, least, most).unwrap_or(NONE);
    }
}

// For each of the first count labels the first start, counted within the label, of a probe with between least and
// most G and C; `NONE` where no start has one. The cutoff is that of the list; nothing but the profile depends on it.
pub fn panel(
    k: usize,
    cutoff: u32,
    probe: usize,
    least: usize,
    most: usize,
    labels: &[u8],
    starts: &[u32],
    lengths: &[u32],
    count: usize,
    out: &mut [u32],
) -> Result<usize, PanelError>
    ensures { Panels result out.new (panel k cutoff probe least most
        labels.now starts.now lengths.now count out.old) }
{
    if !in_profile(k, cutoff, probe) {
        return Err(PanelError::OutOfProfile);
    }
    if !(least..=probe).contains(&most) {
        return Err(PanelError::WrongBounds);
    }
    if !lie_within(labels, starts, lengths, count) {
        return Err(PanelError::OutOfLabels);
    }
    if out.len() < count {
        return Err(PanelError::NoRoom);
    }
    answer_each(probe, least, most, labels, starts, lengths, count, out);
    Ok(count)
}
