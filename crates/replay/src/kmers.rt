// A k-mer and what is asked of it.
use super::found;
use super::read::Data;
use dna::Base;
use kmer::{Kmer, KmerError};

// What is recorded of no answer.
const REFUSED: u8 = 255;

// A k-mer that was made.
fn made(data: &mut Data<'_>, kmer: Result<Kmer, KmerError>) -> Option<bool> {
    let words = [data.word()?, data.word()?];
    Some(kmer == Ok(Kmer { words }))
}

// A number that was told.
fn told(data: &mut Data<'_>, number: u8) -> Option<bool> {
    Some(data.byte()? == number)
}

fn letters(data: &mut Data<'_>, k: usize, x: Kmer) -> Option<bool> {
    let mut room = [0u8; 63];
    let written = x.append_ascii(k, &mut room);
    let same = found::bytes(data, k, &room)?;
    Some(same & (written == Ok(k)))
}

// The k-mers that are asked for: this one, turned, canonical, and rolled by a base each way.
fn kmers(
    data: &mut Data<'_>,
    k: usize,
    read: Result<Kmer, KmerError>,
    x: Kmer,
    base: Base,
) -> Option<bool> {
    let same = made(data, read)?
        & made(data, x.reverse_complement(k))?
        & made(data, x.canonical(k))?
        & made(data, x.roll_forward(k, base))?
        & made(data, x.roll_backward(k, base))?;
    Some(same)
}

// The numbers that are asked for: three of its bases, whether it is canonical, and whether it is less than another.
fn numbers(data: &mut Data<'_>, k: usize, x: Kmer, other: Kmer, place: usize) -> Option<bool> {
    let same = told(data, x.get(k, place).map_or(REFUSED, |base| base.bits()))?
        & told(data, x.front(k).map_or(REFUSED, |base| base.bits()))?
        & told(data, x.back(k).map_or(REFUSED, |base| base.bits()))?
        & told(
            data,
            x.is_canonical(k).map_or(REFUSED, |test| u8::from(test)),
        )?
        & told(data, u8::from(x.is_less(other)))?;
    Some(same)
}

// A case, whose first byte is K.
pub fn case(data: &mut Data<'_>, first: u8) -> Option<bool> {
    let k = usize::from(first);
    let read = Kmer::from_ascii(k, data.bytes(k)?);
    let other = Kmer::from_ascii(k, data.bytes(k)?).unwrap_or(Kmer::zero());
    let base = Base::from_bits(data.byte()?.min(4));
    let place = usize::from(data.byte()?);
    let x = read.unwrap_or(Kmer::zero());
    let same = kmers(data, k, read, x, base)?
        & numbers(data, k, x, other, place)?
        & letters(data, k, x)?;
    Some(same)
}
