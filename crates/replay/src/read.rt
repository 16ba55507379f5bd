// The pieces of a case that the library is asked about.

// What is left of a data file. Each call takes a piece from the front, and is `None` where the file ends before.
#[derive(Drop)]
pub struct Data<'a> {
    rest: &'a [u8],
}

impl<'a> Data<'a> {
    pub fn new(bytes: &'a [u8]) -> Data<'a> {
        Data { rest: bytes }
    }

    pub fn bytes(&mut self, n: usize) -> Option<&'a [u8]> {
        let (first, rest) = self.rest.split_at_checked(n)?;
        self.rest = rest;
        Some(first)
    }

    fn chunk<const N: usize>(&mut self) -> Option<[u8; N]> {
        let (first, rest) = self.rest.split_first_chunk::<N>()?;
        self.rest = rest;
        Some(*first)
    }

    pub fn byte(&mut self) -> Option<u8> {
        Some(u8::from_le_bytes(self.chunk()?))
    }

    // A number of two bytes.
    pub fn short(&mut self) -> Option<u32> {
        Some(u32::from(u16::from_le_bytes(self.chunk()?)))
    }

    // The same, as a length.
    pub fn length(&mut self) -> Option<usize> {
        Some(usize::from(u16::from_le_bytes(self.chunk()?)))
    }

    pub fn cell(&mut self) -> Option<u32> {
        Some(u32::from_le_bytes(self.chunk()?))
    }

    pub fn word(&mut self) -> Option<u64> {
        Some(u64::from_le_bytes(self.chunk()?))
    }

    pub fn cells(&mut self, out: &mut [u32]) -> Option<()> {
        for cell in out {
            *cell = self.cell()?;
        }
        Some(())
    }

    pub fn words(&mut self, out: &mut [u64]) -> Option<()> {
        for word in out {
            *word = self.word()?;
        }
        Some(())
    }
}
