// Colours for C: a coordinate and a run packed and taken apart, and the run list of a label.
ghost use Rattle.std.specs.Prelude.{◌≡◌};
ghost use Rattle.dna.specs.Answer.{gives};
ghost use Rattle.colours.specs.Packed.{offset_in, coordinate_in, discovered_call, parts_call, run_call};
ghost use Rattle.colours.specs.Runs.{check_call, color_call, colors_call};
ghost use Rattle.capi.specs.Says.{number_of, of_number, of_pair, parts_answer, Tells, FillsOut};

use super::numbers::Tell;
use colours::{ColorCoordinate, OutOfRange, UnitigColor, VertexOffset};

// Both parts of a coordinate.
fn parts(coordinate: ColorCoordinate) -> Result<(u64, u64), OutOfRange>
    ensures { parts_answer result ≡ parts_call coordinate.0 }
{
    Ok((coordinate.worker()?, coordinate.index()?))
}

// `ColorCoordinate::discovered`: the figure is the coordinate.
pub fn lash_pack_coordinate(worker: u64, index: u64, figures: &mut [u64]) -> u32
    ensures { Tells of_number (discovered_call worker index) result figures.old figures.new }
{
    ColorCoordinate::discovered(worker, index).tell(figures)
}

// `worker` and `index` of a coordinate: the figures are these two.
pub fn lash_unpack_coordinate(coordinate: u64, figures: &mut [u64]) -> u32
    ensures { Tells of_pair (parts_call coordinate) result figures.old figures.new }
{
    parts(ColorCoordinate(coordinate)).tell(figures)
}

// `UnitigColor::new`: the figure is the run.
pub fn lash_pack_run(offset: u32, coordinate: u64, figures: &mut [u64]) -> u32
    ensures { Tells of_number (run_call offset coordinate) result figures.old figures.new }
{
    UnitigColor::new(VertexOffset(offset), ColorCoordinate(coordinate)).tell(figures)
}

// `offset` and `coordinate` of a run: the figures are these two. Every word is a run.
pub fn lash_unpack_run(run: u64, figures: &mut [u64]) -> u32
    ensures { Tells of_pair (gives (offset_in run, coordinate_in run)) result
        figures.old figures.new }
{
    let run = UnitigColor(run);
    (u64::from(run.offset().0), run.coordinate().0).tell(figures)
}

// `check_runs`.
pub fn lash_check_runs(runs: &[u64], kmers: usize) -> u32
    ensures { result ≡ number_of (check_call kmers runs.now) }
{
    colours::check_runs(runs, kmers).tell(&mut [])
}

// `color_at`: the figure is the coordinate of the colour.
pub fn lash_color_at(runs: &[u64], kmers: usize, vertex: u32, figures: &mut [u64]) -> u32
    ensures { Tells of_number (color_call kmers runs.now vertex) result
        figures.old figures.new }
{
    colours::color_at(runs, kmers, VertexOffset(vertex)).tell(figures)
}

// `write_colors`: the figure is the number of vertices whose colours were written.
pub fn lash_write_colors(runs: &[u64], kmers: usize, out: &mut [u64], figures: &mut [u64]) -> u32
    ensures { FillsOut result out.new figures.old figures.new
        (colors_call kmers runs.now out.old) }
{
    colours::write_colors(runs, kmers, out).tell(figures)
}
