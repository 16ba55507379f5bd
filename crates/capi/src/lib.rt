// The calls of a pipeline in plain numbers and slices, which `capi_c` exports for C and Rust: each answers a refusal's
// number, 0 where there is none, and puts its figures, or what is returned beside the refusal, into the first cells of
// a lent slice.
#![tactic(auto)]

ghost use Rattle.std.specs.Prelude.{◌≡◌};
ghost use Rattle.state.specs.Says.{kind_of};
ghost use Rattle.graph.specs.Adding.{add_label};
ghost use Rattle.graph.specs.Several.{add_labels};
ghost use Rattle.graph.specs.Contraction.{contract};
ghost use Rattle.graph.specs.Fasta.{fasta};
ghost use Rattle.rules.specs.Judging.{judge};
ghost use Rattle.adding.specs.Says.{rule_of};
ghost use Rattle.panel.specs.Panel.{panel};
ghost use Rattle.capi.specs.Says.{edge_kind_of, mode_of};
ghost use Rattle.capi.specs.Says.{AddsLabel, AddsSeveral, ContractsTable, FillsOut, JudgesText};

mod numbers;
mod runs;

use adding::Mode;
use numbers::{Tell, note};
pub use runs::{
    lash_check_runs, lash_color_at, lash_pack_coordinate, lash_pack_run, lash_unpack_coordinate,
    lash_unpack_run, lash_write_colors,
};
use state::EdgeKind;

// What the words of a table keep of edges, by the number that C passes: 0 four-bit counts, any other presence bits.
fn kind_of(kind: u32) -> EdgeKind
    ensures { result ≡ edge_kind_of kind }
{
    if kind == 0 {
        EdgeKind::Counted
    } else {
        EdgeKind::Presence
    }
}

// The mode that C names by a number: 0 the Rust's, any other the one that counts a step from a k-mer to itself on both
// its sides.
fn mode_of(number: u32) -> Mode
    ensures { result ≡ mode_of number }
{
    if number == 0 {
        Mode::SameCanonical
    } else {
        Mode::Reversed
    }
}

// `add_label`: figures are the edges and the number stored afterwards.
pub fn lash_add_label(
    kind: u32,
    mode: u32,
    k: usize,
    n: usize,
    keys: &mut [u64],
    counts: &mut [u32],
    label: &[u8],
    figures: &mut [u64],
) -> u32
    ensures { AddsLabel result keys.new counts.new figures.old figures.new
        (add_label (kind_of (edge_kind_of kind)) (rule_of (mode_of mode)) k n keys.old counts.old label.now) }
{
    adding::add_label(kind_of(kind), mode_of(mode), k, n, keys, counts, label).tell(figures)
}

// `add_labels`: totals are the labels added and the number stored after them, figures those of the last label that was
// tried.
pub fn lash_add_labels(
    kind: u32,
    mode: u32,
    k: usize,
    n: usize,
    keys: &mut [u64],
    counts: &mut [u32],
    text: &[u8],
    starts: &[u32],
    lengths: &[u32],
    count: usize,
    totals: &mut [u64],
    figures: &mut [u64],
) -> u32
    ensures { AddsSeveral result keys.new counts.new totals.old totals.new figures.old figures.new
        (add_labels (kind_of (edge_kind_of kind)) (rule_of (mode_of mode)) k n
        keys.old counts.old text.now starts.now lengths.now count) }
{
    let words = kind_of(kind);
    let chosen = mode_of(mode);
    match adding::add_labels(
        words, chosen, k, n, keys, counts, text, starts, lengths, count,
    ) {
        Ok(all) => {
            note(&[all.labels as u64, all.stored as u64], totals);
            all.last.tell(figures)
        }
        Err(error) => {
            note(&[0, n as u64], totals);
            error.tell(figures)
        }
    }
}

// `contract`: figures are the number of labels and their bases.
pub fn lash_contract(
    kind: u32,
    k: usize,
    cutoff: u32,
    n: usize,
    keys: &[u64],
    counts: &[u32],
    labels: &mut [u8],
    starts: &mut [u32],
    lengths: &mut [u32],
    marks: &mut [u8],
    figures: &mut [u64],
) -> u32
    ensures { ContractsTable result labels.new starts.new lengths.new marks.new figures.old figures.new
        (contract (kind_of (edge_kind_of kind)) k cutoff n keys.now counts.now
        labels.old starts.old lengths.old marks.old) }
{
    let words = kind_of(kind);
    contraction::contract(
        words, k, cutoff, n, keys, counts, labels, starts, lengths, marks,
    )
    .tell(figures)
}

// `write_fasta`: the figure is the number of bytes written.
pub fn lash_write_fasta(
    labels: &[u8],
    starts: &[u32],
    lengths: &[u32],
    count: usize,
    out: &mut [u8],
    figures: &mut [u64],
) -> u32
    ensures { FillsOut result out.new figures.old figures.new (fasta labels.now starts.now lengths.now count out.old) }
{
    fasta::write_fasta(labels, starts, lengths, count, out).tell(figures)
}

// `judge`: figures are the first broken rule and the lowest label concerned, 0 and 0 where the list passes.
pub fn lash_judge(
    kind: u32,
    k: usize,
    cutoff: u32,
    n: usize,
    keys: &[u64],
    counts: &[u32],
    text: &[u8],
    marks: &mut [u8],
    figures: &mut [u64],
) -> u32
    ensures { JudgesText result marks.new figures.old figures.new
        (judge (kind_of (edge_kind_of kind)) k cutoff n keys.now counts.now text.now marks.old) }
{
    judging::judge(kind_of(kind), k, cutoff, n, keys, counts, text, marks).tell(figures)
}

// `panel`: the figure is the number of labels answered.
pub fn lash_panel(
    k: usize,
    cutoff: u32,
    probe: usize,
    least: usize,
    most: usize,
    labels: &[u8],
    starts: &[u32],
    lengths: &[u32],
    count: usize,
    out: &mut [u32],
    figures: &mut [u64],
) -> u32
    ensures { FillsOut result out.new figures.old figures.new (panel k cutoff probe least most
        labels.now starts.now lengths.now count out.old) }
{
    panel::panel(
        k, cutoff, probe, least, most, labels, starts, lengths, count, out,
    )
    .tell(figures)
}
