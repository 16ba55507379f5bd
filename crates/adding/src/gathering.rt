// All windows of a label looked up in the table as it is.
ghost use Rattle.std.specs.Prelude.{◌≡◌, ◌+◌, ◌*◌, ◌<◌, ◌≤◌, length};
ghost use Rattle.kmer.specs.Says.{value_of};
ghost use Rattle.graph.specs.Table.{keys_of};
ghost use Rattle.graph.specs.Sightings.{windows};
ghost use Rattle.adding.specs.Batch.{Gathers};
ghost use Rattle.adding.specs.Says.{rule_of, put_key, Sought};

use super::scratch::{Fresh, Noted};
use super::{Mode, windows};
use kmer::Kmer;

// A k-mer's words put into a slice.
pub(crate) fn put_key(keys: &mut [u64], at: usize, x: Kmer)
    requires { 2 * at + 1 < length keys.old }
    ensures { keys.new ≡ put_key keys.old at (value_of x) }
{
    keys[2 * at] = x.words[0];
    keys[2 * at + 1] = x.words[1];
}

// How large a directory of n keys is worth its making for so many windows: none where the keys are many more.
fn cells_for(n: usize, windows: usize) -> usize
    requires { windows ≤ 4096 }
    ensures { result ≤ 4097 }
{
    if 48 * windows < n {
        0
    } else if windows < 512 {
        1025
    } else {
        4097
    }
}

impl<const WINDOWS: usize, const WORDS: usize> Fresh<WINDOWS, WORDS> {
    // Window by window, by a directory of whatever content: what it says does not matter.
    fn look_up(
        &mut self,
        mode: Mode,
        k: usize,
        label: &[u8],
        n: usize,
        keys: &[u64],
        directory: &[u32],
        noted: &mut Noted<WINDOWS>,
    ) -> usize
        requires sought { Sought k label.now n keys.now }
        requires room { windows k label.now ≤ WINDOWS }
        ensures { Gathers (rule_of mode) k label.now (keys_of n keys.now) (windows k label.now) result
            noted.new.notes noted.new.places self.new.keys self.new.offsets }
    {
        let mut new = 0;
        let mut previous = None;
        let end = label.len() - k + 1;
        for o in 0..end {
            let seen = windows::see(k, label, o);
            let code = windows::code_of(mode, k, label, o, previous, seen);
            let (note, place) = match directory::find(k, n, keys, directory, seen.kmer) {
                Ok(i) => (code, i),
                Err(i) => {
                    put_key(&mut self.keys, new, seen.kmer);
                    self.offsets[new] = o as u32;
                    new += 1;
                    (code + 64, i)
                }
            };
            noted.notes[o] = note;
            noted.places[o] = place as u32;
            previous = Some(seen);
        }
        new
    }

    // Of each window what is noted and the place of its k-mer; of the new ones the k-mers and offsets, and how many
    // they are. It is not inlined, so that the cells have left the stack when the rows are sorted.
    #[inline(never)]
    pub(crate) fn gather(
        &mut self,
        mode: Mode,
        k: usize,
        label: &[u8],
        n: usize,
        keys: &[u64],
        noted: &mut Noted<WINDOWS>,
    ) -> usize
        requires sought { Sought k label.now n keys.now }
        requires room { windows k label.now ≤ WINDOWS }
        ensures { Gathers (rule_of mode) k label.now (keys_of n keys.now) (windows k label.now) result
            noted.new.notes noted.new.places self.new.keys self.new.offsets }
    {
        let mut cells = [0u32; 4097];
        let directory = &mut cells[..cells_for(n, label.len() - k + 1)];
        directory::make(k, n, keys, directory);
        self.look_up(mode, k, label, n, keys, directory, noted)
    }
}
