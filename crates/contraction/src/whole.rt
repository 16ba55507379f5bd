// The whole contraction.
ghost use Rattle.std.specs.Prelude.{◌≡◌, ◌||◌, ◌≤◌, ltb, length};
ghost use Rattle.state.specs.Says.{kind_of};
ghost use Rattle.graph.specs.Contraction.{contract as contracted, entries, sorted};
ghost use Rattle.marks.specs.Marks.{visits};
ghost use Rattle.marks.specs.Ready.{FitTable, Ready};
ghost use Rattle.contraction.specs.Over.{run_in};
ghost use Rattle.contraction.specs.Says.{Contracts, Roomy, Lists, Ordered, finish_in};
ghost use Rattle.contraction.specs.Trail.{Trails};

use super::{ContractError, Unitigs, survey, write};
use state::EdgeKind;

// Whether the labels do not fit the buffer, or their entries do not fit one of the two slices.
fn lacks_room(buffer: usize, starts: usize, lengths: usize, all: Unitigs) -> bool
    ensures { result ≡ (ltb buffer all.bases || ltb starts all.labels || ltb lengths all.labels) }
{
    buffer < all.bases || starts < all.labels || lengths < all.labels
}

// The index put in byte order of the labels that it names. They are canonical and no two are the same, so there is no
// more to do.
fn normalize_unitigs(labels: &[u8], starts: &mut [u32], lengths: &mut [u32], count: usize)
    requires { (count ≤ length starts.old) × (count ≤ length lengths.old) }
    ensures { Ordered labels.now starts.old lengths.old count starts.new lengths.new }
{
    let _sorted = sorting::sort_index(labels, starts, lengths, count);
}

// The labels and their index in byte order, for which there is room. The marks are 0 and 1 afterwards.
fn write_list(
    k: usize,
    keys: &[u64],
    marks: &mut [u8],
    trail: &[u8],
    labels: &mut [u8],
    starts: &mut [u32],
    lengths: &mut [u32],
)
    requires { Ready k keys.now marks.old × Trails k keys.now marks.old trail.now
        × Roomy k keys.now marks.old (length labels.old) (length starts.old) (length lengths.old) }
    ensures { let run = run_in k keys.now marks.old (length marks.old) in
        (marks.new ≡ visits marks.old)
        × Lists run (sorted (entries 0 run.labels))
        labels.old labels.new starts.old starts.new lengths.old lengths.new }
{
    let count = write::write_labels(k, keys, marks, trail, labels, starts, lengths);
    marks::settle(marks);
    normalize_unitigs(labels, starts, lengths, count);
}

// A fit table of as many vertices as there are marks. All walks are followed before the first byte is written: the
// trail has two bytes for each of at most 65,536 vertices, which is enough. Where nothing is written, the marks are 0
// afterwards. Labels, starts and lengths go one by one: a struct of `&mut` asks a clause for each of its references
// too.
fn contract_fit(
    kind: EdgeKind,
    k: usize,
    cutoff: u32,
    keys: &[u64],
    counts: &[u32],
    labels: &mut [u8],
    starts: &mut [u32],
    lengths: &mut [u32],
    marks: &mut [u8],
) -> Result<Unitigs, ContractError>
    requires { FitTable k keys.now counts.now marks.old }
    ensures { Contracts result labels.new starts.new lengths.new marks.new
        (finish_in (kind_of kind) k cutoff (length marks.old) keys.now counts.now
        labels.old starts.old lengths.old marks.old) }
{
    let mut trail = [0u8; 131072];
    marks::digest(kind, counts, cutoff, marks);
    match survey::survey(k, keys, marks, &mut trail) {
        Ok(all) if lacks_room(labels.len(), starts.len(), lengths.len(), all) => {
            marks::clear(marks);
            Err(ContractError::NoRoom)
        }
        Ok(all) => {
            write_list(k, keys, marks, &trail, labels, starts, lengths);
            Ok(all)
        }
        Err(why) => {
            marks::clear(marks);
            Err(why)
        }
    }
}

// The unitigs of a table at a cutoff, or the first of the refusals 1, 5, 15, 7, 8, 9 that is due.
pub fn contract(
    kind: EdgeKind,
    k: usize,
    cutoff: u32,
    n: usize,
    keys: &[u64],
    counts: &[u32],
    labels: &mut [u8],
    starts: &mut [u32],
    lengths: &mut [u32],
    marks: &mut [u8],
) -> Result<Unitigs, ContractError>
    ensures { Contracts result labels.new starts.new lengths.new marks.new
        (contracted (kind_of kind) k cutoff n keys.now counts.now labels.old starts.old lengths.old marks.old) }
{
    table::fit(kind, k, n, keys, counts)?;
    if !state::answers_for(kind, cutoff) {
        return Err(ContractError::WrongCutoff);
    }
    if marks.len() < n {
        return Err(ContractError::FewMarks);
    }
    contract_fit(
        kind,
        k,
        cutoff,
        keys,
        counts,
        labels,
        starts,
        lengths,
        &mut marks[..n],
    )
}
