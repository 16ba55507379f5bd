// Colours: where a set of sources is kept and runs of one colour (the colours of state.rs), and the run list of a
// label.
#![tactic(auto)]

ghost use Rattle.std.specs.Prelude.{◌≡◌};
ghost use Rattle.colours.specs.Packed.{in_process, offset_in, coordinate_in};
ghost use Rattle.colours.specs.Packed.{discovered_call, u40_call, worker_call, index_call, run_call};
ghost use Rattle.colours.specs.Says.{coordinate_answer, part_answer, run_answer};

mod list;

pub use list::{check_runs, color_at, write_colors};

// Where a set of sources is kept: a worker in eight bits, an index in 32 above them. The highest bit of the word marks
// a coordinate in process.
#[derive(Clone, Copy, PartialEq, Eq, Debug)]
pub struct ColorCoordinate(pub u64);

// A vertex of a label, from 0 on. A run can begin at those below 2^24.
#[derive(Clone, Copy, PartialEq, Eq, Debug)]
pub struct VertexOffset(pub u32);

// A run: the offset of its first vertex in 24 bits, its colour's coordinate in the 40 bits above them.
#[derive(Clone, Copy, PartialEq, Eq, Debug)]
pub struct UnitigColor(pub u64);

// A part of a coordinate or of a run does not fit its bits.
#[derive(Clone, Copy, PartialEq, Eq, Debug)]
pub struct OutOfRange;

// A label's run list breaks a rule; a vertex past the label; the colours exceed their slice.
#[derive(Clone, Copy, PartialEq, Eq, Debug)]
pub enum ColorError {
    BrokenRuns,
    PastLabel,
    NoRoom,
}

impl ColorCoordinate {
    // The coordinate of a worker's index.
    pub fn discovered(worker: u64, index: u64) -> Result<ColorCoordinate, OutOfRange>
        ensures { coordinate_answer result ≡ discovered_call worker index }
    {
        if worker > 0xff || index > 0xffff_ffff {
            return Err(OutOfRange);
        }
        Ok(ColorCoordinate(worker | (index << 8)))
    }

    // The coordinate of 40 bits.
    pub fn from_u40(value: u64) -> Result<ColorCoordinate, OutOfRange>
        ensures { coordinate_answer result ≡ u40_call value }
    {
        ColorCoordinate(value).as_u40().map(ColorCoordinate)
    }

    pub fn is_in_process(self) -> bool
        ensures { result ≡ in_process self.0 }
    {
        self.0 >> 63 == 1
    }

    // The 40 bits of a coordinate.
    pub fn as_u40(self) -> Result<u64, OutOfRange>
        ensures { part_answer result ≡ u40_call self.0 }
    {
        if self.0 > 0xff_ffff_ffff {
            return Err(OutOfRange);
        }
        Ok(self.0)
    }

    pub fn worker(self) -> Result<u64, OutOfRange>
        ensures { part_answer result ≡ worker_call self.0 }
    {
        Ok(self.as_u40()? & 0xff)
    }

    pub fn index(self) -> Result<u64, OutOfRange>
        ensures { part_answer result ≡ index_call self.0 }
    {
        Ok(self.as_u40()? >> 8)
    }
}

impl UnitigColor {
    // A run that begins at an offset.
    pub fn new(offset: VertexOffset, coordinate: ColorCoordinate) -> Result<UnitigColor, OutOfRange>
        ensures { run_answer result ≡ run_call offset.0 coordinate.0 }
    {
        if offset.0 > 0xff_ffff {
            return Err(OutOfRange);
        }
        Ok(UnitigColor((coordinate.as_u40()? << 24) | u64::from(offset.0)))
    }

    // The vertex at which the run begins.
    pub fn offset(self) -> VertexOffset
        ensures { result.0 ≡ offset_in self.0 }
    {
        VertexOffset((self.0 & 0xff_ffff) as u32)
    }

    // The coordinate of the run's colour.
    pub fn coordinate(self) -> ColorCoordinate
        ensures { result.0 ≡ coordinate_in self.0 }
    {
        ColorCoordinate(self.0 >> 24)
    }

    // The whole word.
    pub fn raw(self) -> u64
        ensures { result ≡ self.0 }
    {
        self.0
    }
}
