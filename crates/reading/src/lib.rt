// A file, or standard input, read whole. What it holds is the world's, so the contracts say only how much of the
// buffer it took.
#![tactic(auto)]

ghost use Rattle.reading.specs.Within.{Within};

use std::io;
use std::io::Read;

// Reads until the input ends or the buffer is full; the input stands from the buffer's first byte on. An error of the
// reader is passed on.
pub fn read_from<R: Read>(reader: &mut R, buffer: &mut [u8]) -> io::Result<usize>
    ensures { Within result buffer.new }
{
    let mut done = 0;
    while done < buffer.len() {
        match reader.read(&mut buffer[done..])? {
            0 => return Ok(done),
            more => done += more,
        }
    }
    Ok(done)
}

// Standard input.
pub fn read_input(rt: &impl io::Input, buffer: &mut [u8]) -> io::Result<usize>
    ensures { Within result buffer.new }
{
    read_from(&mut rt.reader(), buffer)
}
