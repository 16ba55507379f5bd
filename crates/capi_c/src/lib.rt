// The calls of `capi` for C and Rust, under its names: a static library exports what a library can't.
#![tactic(auto)]

ghost use Rattle.std.specs.Prelude.{◌≡◌};
ghost use Rattle.dna.specs.Answer.{gives};
ghost use Rattle.state.specs.Says.{kind_of};
ghost use Rattle.graph.specs.Adding.{add_label};
ghost use Rattle.graph.specs.Several.{add_labels};
ghost use Rattle.graph.specs.Contraction.{contract};
ghost use Rattle.graph.specs.Fasta.{fasta};
ghost use Rattle.rules.specs.Judging.{judge};
ghost use Rattle.adding.specs.Says.{rule_of};
ghost use Rattle.panel.specs.Panel.{panel};
ghost use Rattle.colours.specs.Packed.{offset_in, coordinate_in, discovered_call, parts_call, run_call};
ghost use Rattle.colours.specs.Runs.{check_call, color_call, colors_call};
ghost use Rattle.capi.specs.Says.{edge_kind_of, mode_of, number_of, of_number, of_pair};
ghost use Rattle.capi.specs.Says.{Tells, AddsLabel, AddsSeveral, ContractsTable, FillsOut, JudgesText};

#[unsafe(no_mangle)]
pub extern "C" fn lash_add_label(
    kind: u32,
    mode: u32,
    k: usize,
    n: usize,
    keys: &mut [u64],
    counts: &mut [u32],
    label: &[u8],
    figures: &mut [u64],
) -> u32
    ensures { AddsLabel result keys.new counts.new figures.old figures.new
        (add_label (kind_of (edge_kind_of kind)) (rule_of (mode_of mode)) k n keys.old counts.old label.now) }
{
    capi::lash_add_label(kind, mode, k, n, keys, counts, label, figures)
}

#[unsafe(no_mangle)]
pub extern "C" fn lash_add_labels(
    kind: u32,
    mode: u32,
    k: usize,
    n: usize,
    keys: &mut [u64],
    counts: &mut [u32],
    text: &[u8],
    starts: &[u32],
    lengths: &[u32],
    count: usize,
    totals: &mut [u64],
    figures: &mut [u64],
) -> u32
    ensures { AddsSeveral result keys.new counts.new totals.old totals.new figures.old figures.new
        (add_labels (kind_of (edge_kind_of kind)) (rule_of (mode_of mode)) k n
        keys.old counts.old text.now starts.now lengths.now count) }
{
    capi::lash_add_labels(
        kind, mode, k, n, keys, counts, text, starts, lengths, count, totals, figures,
    )
}

#[unsafe(no_mangle)]
pub extern "C" fn lash_contract(
    kind: u32,
    k: usize,
    cutoff: u32,
    n: usize,
    keys: &[u64],
    counts: &[u32],
    labels: &mut [u8],
    starts: &mut [u32],
    lengths: &mut [u32],
    marks: &mut [u8],
    figures: &mut [u64],
) -> u32
    ensures { ContractsTable result labels.new starts.new lengths.new marks.new figures.old figures.new
        (contract (kind_of (edge_kind_of kind)) k cutoff n keys.now counts.now
        labels.old starts.old lengths.old marks.old) }
{
    capi::lash_contract(
        kind, k, cutoff, n, keys, counts, labels, starts, lengths, marks, figures,
    )
}

#[unsafe(no_mangle)]
pub extern "C" fn lash_write_fasta(
    labels: &[u8],
    starts: &[u32],
    lengths: &[u32],
    count: usize,
    out: &mut [u8],
    figures: &mut [u64],
) -> u32
    ensures { FillsOut result out.new figures.old figures.new (fasta labels.now starts.now lengths.now count out.old) }
{
    capi::lash_write_fasta(labels, starts, lengths, count, out, figures)
}

#[unsafe(no_mangle)]
pub extern "C" fn lash_judge(
    kind: u32,
    k: usize,
    cutoff: u32,
    n: usize,
    keys: &[u64],
    counts: &[u32],
    text: &[u8],
    marks: &mut [u8],
    figures: &mut [u64],
) -> u32
    ensures { JudgesText result marks.new figures.old figures.new
        (judge (kind_of (edge_kind_of kind)) k cutoff n keys.now counts.now text.now marks.old) }
{
    capi::lash_judge(kind, k, cutoff, n, keys, counts, text, marks, figures)
}

#[unsafe(no_mangle)]
pub extern "C" fn lash_panel(
    k: usize,
    cutoff: u32,
    probe: usize,
    least: usize,
    most: usize,
    labels: &[u8],
    starts: &[u32],
    lengths: &[u32],
    count: usize,
    out: &mut [u32],
    figures: &mut [u64],
) -> u32
    ensures { FillsOut result out.new figures.old figures.new (panel k cutoff probe least most
        labels.now starts.now lengths.now count out.old) }
{
    capi::lash_panel(
        k, cutoff, probe, least, most, labels, starts, lengths, count, out, figures,
    )
}

#[unsafe(no_mangle)]
pub extern "C" fn lash_pack_coordinate(worker: u64, index: u64, figures: &mut [u64]) -> u32
    ensures { Tells of_number (discovered_call worker index) result figures.old figures.new }
{
    capi::lash_pack_coordinate(worker, index, figures)
}

#[unsafe(no_mangle)]
pub extern "C" fn lash_unpack_coordinate(coordinate: u64, figures: &mut [u64]) -> u32
    ensures { Tells of_pair (parts_call coordinate) result figures.old figures.new }
{
    capi::lash_unpack_coordinate(coordinate, figures)
}

#[unsafe(no_mangle)]
pub extern "C" fn lash_pack_run(offset: u32, coordinate: u64, figures: &mut [u64]) -> u32
    ensures { Tells of_number (run_call offset coordinate) result figures.old figures.new }
{
    capi::lash_pack_run(offset, coordinate, figures)
}

#[unsafe(no_mangle)]
pub extern "C" fn lash_unpack_run(run: u64, figures: &mut [u64]) -> u32
    ensures { Tells of_pair (gives (offset_in run, coordinate_in run)) result
        figures.old figures.new }
{
    capi::lash_unpack_run(run, figures)
}

#[unsafe(no_mangle)]
pub extern "C" fn lash_check_runs(runs: &[u64], kmers: usize) -> u32
    ensures { result ≡ number_of (check_call kmers runs.now) }
{
    capi::lash_check_runs(runs, kmers)
}

#[unsafe(no_mangle)]
pub extern "C" fn lash_color_at(runs: &[u64], kmers: usize, vertex: u32, figures: &mut [u64]) -> u32
    ensures { Tells of_number (color_call kmers runs.now vertex) result
        figures.old figures.new }
{
    capi::lash_color_at(runs, kmers, vertex, figures)
}

#[unsafe(no_mangle)]
pub extern "C" fn lash_write_colors(
    runs: &[u64],
    kmers: usize,
    out: &mut [u64],
    figures: &mut [u64],
) -> u32
    ensures { FillsOut result out.new figures.old figures.new
        (colors_call kmers runs.now out.old) }
{
    capi::lash_write_colors(runs, kmers, out, figures)
}
