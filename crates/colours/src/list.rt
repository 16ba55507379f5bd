// The run list of a label: words that each hold a run.
ghost use Rattle.std.specs.Prelude.{◌≡◌, true, ◌≤◌, length, replicate};
ghost use Rattle.dna.specs.Text.{over};
ghost use Rattle.colours.specs.Packed.{offset_in, coordinate_in};
ghost use Rattle.colours.specs.Runs.{sound_runs, last_by, colors_from, check_call, color_call, colors_call};
ghost use Rattle.colours.specs.Says.{runs_answer, color_answer, WritesColors};

use super::{ColorCoordinate, ColorError, UnitigColor, VertexOffset};

// The number of the vertex where a run begins.
fn start_of(run: u64) -> usize
    ensures { result ≡ offset_in run }
{
    UnitigColor(run).offset().0 as usize
}

// The coordinate of a run's colour, as a number.
fn color_of(run: u64) -> u64
    ensures { result ≡ coordinate_in run }
{
    UnitigColor(run).coordinate().0
}

// The runs keep the rules of a label with so many k-mers.
fn are_sound(runs: &[u64], kmers: usize) -> bool
    ensures { result ≡ sound_runs kmers runs.now }
{
    let [first, rest @ ..] = runs else {
        return false;
    };
    if start_of(*first) != 0 || kmers == 0 {
        return false;
    }
    let mut last = 0;
    for &run in rest {
        let start = start_of(run);
        if start <= last || kmers <= start {
            return false;
        }
        last = start;
    }
    true
}

// The colour of the last run at or before a vertex, by halving. The number of k-mers is asked for what is required.
fn last_by(runs: &[u64], kmers: usize, vertex: usize) -> ColorCoordinate
    requires { sound_runs kmers runs.now ≡ true }
    ensures { result.0 ≡ last_by vertex 0 runs.now }
{
    let behind = runs.partition_point(|&run| start_of(run) <= vertex);
    UnitigColor(runs[behind - 1]).coordinate()
}

// Every cell the colour. As compiled, the loop stores four cells at a time, where std's `fill`, which stores the last
// apart, would store four one by one. A single cell goes without the loop, which takes longer for one.
fn paint(cells: &mut [u64], color: u64)
    ensures { cells.new ≡ replicate (length cells.old) color }
{
    if cells.len() == 1 {
        cells[0] = color;
        return;
    }
    for i in 0..cells.len() {
        cells[i] = color;
    }
}

// The colours at all vertices, run by run: each up to where the next begins, the last up to the label's end.
fn paint_runs(runs: &[u64], kmers: usize, out: &mut [u64])
    requires { (sound_runs kmers runs.now ≡ true) × (kmers ≤ length out.old) }
    ensures { out.new ≡ over (colors_from runs.now 0 kmers) out.old }
{
    let mut color = color_of(runs[0]);
    let mut from = 0;
    for &run in &runs[1..] {
        let to = start_of(run);
        paint(&mut out[from..to], color);
        color = color_of(run);
        from = to;
    }
    paint(&mut out[from..kmers], color);
}

// Whether a label with so many k-mers may have this run list: at least one run, the offsets strictly ascending, the
// first 0, all below the number of k-mers.
pub fn check_runs(runs: &[u64], kmers: usize) -> Result<(), ColorError>
    ensures { runs_answer result ≡ check_call kmers runs.now }
{
    if !are_sound(runs, kmers) {
        return Err(ColorError::BrokenRuns);
    }
    Ok(())
}

// The colour at a vertex of a label with so many k-mers: that of the last run at or before it.
pub fn color_at(
    runs: &[u64],
    kmers: usize,
    vertex: VertexOffset,
) -> Result<ColorCoordinate, ColorError>
    ensures { color_answer result ≡ color_call kmers runs.now vertex.0 }
{
    check_runs(runs, kmers)?;
    let at = vertex.0 as usize;
    if kmers <= at {
        return Err(ColorError::PastLabel);
    }
    Ok(last_by(runs, kmers, at))
}

// The colours at all vertices of a label, from the slice's first cell on; the list is tested once.
pub fn write_colors(runs: &[u64], kmers: usize, out: &mut [u64]) -> Result<usize, ColorError>
    ensures { WritesColors result out.new (colors_call kmers runs.now out.old) }
{
    check_runs(runs, kmers)?;
    if out.len() < kmers {
        return Err(ColorError::NoRoom);
    }
    paint_runs(runs, kmers, out);
    Ok(kmers)
}
