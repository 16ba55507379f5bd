// One label added.
ghost use Rattle.std.specs.Prelude.{◌≡◌, [], ◌*◌, ◌≤◌, length};
ghost use Rattle.dna.specs.Letters.{first_bad};
ghost use Rattle.state.specs.Says.{kind_of};
ghost use Rattle.graph.specs.Table.{keys_of};
ghost use Rattle.graph.specs.Sightings.{windows};
ghost use Rattle.graph.specs.Adding.{add_label, add_bases};
ghost use Rattle.adding.specs.Batch.{Looked, Grouped, sorted_new};
ghost use Rattle.adding.specs.Says.{rule_of, Addable, Sought, Ready, Adds, place_in};

use super::scratch::{Fresh, Noted};
use super::{AddError, Addition, Mode, Settings};
use state::EdgeKind;

// A label's first byte that is no base, and its place.
fn first_bad(s: &[u8]) -> Option<(usize, u8)>
    ensures { place_in result ≡ first_bad 0 s.now }
{
    for (place, &byte) in s.iter().enumerate() {
        if !dna::is_dna_ascii(byte) {
            return Some((place, byte));
        }
    }
    None
}

impl Settings {
    // The new k-mers of a label made vertices by themselves, sorted and counted, and how many they are; of each window
    // what is noted and the place of its k-mer.
    fn make_vertices<const WINDOWS: usize, const WORDS: usize>(
        self,
        label: &[u8],
        n: usize,
        keys: &[u64],
        noted: &mut Noted<WINDOWS>,
        fresh: &mut Fresh<WINDOWS, WORDS>,
    ) -> usize
        requires sought { Sought self.k label.now n keys.now }
        requires room { windows self.k label.now ≤ WINDOWS }
        ensures looked { Looked (rule_of self.mode) self.k label.now (keys_of n keys.now) (windows self.k label.now)
            noted.new.notes noted.new.places }
        ensures grouped { let ks = keys_of n keys.now in
            Grouped (kind_of self.kind) (rule_of self.mode) self.k label.now ks (sorted_new self.k label.now ks) result
            fresh.new.keys fresh.new.places fresh.new.counts }
    {
        let rows = fresh.gather(self.mode, self.k, label, n, keys, noted);
        keysort::sort_rows(self.k, &mut fresh.keys, &mut fresh.offsets, rows);
        fresh.group(self.kind, rows, noted)
    }

    // A label of bases with room for so many windows, and for the two words of the k-mer of each: if its new vertices
    // have room, the windows of the others are counted where they stand, and the new ones are put in all at once. It
    // is not inlined, so that the stack of a call for few windows does not hold the room for many.
    #[inline(never)]
    fn add_in<const WINDOWS: usize, const WORDS: usize>(
        self,
        n: usize,
        keys: &mut [u64],
        counts: &mut [u32],
        label: &[u8],
    ) -> Result<Addition, AddError>
        requires addable { Addable self.k label.now n keys.old counts.old }
        requires room { windows self.k label.now ≤ WINDOWS }
        requires few { WINDOWS ≤ 4096 }
        requires pairs { WORDS ≡ 2 * WINDOWS }
        ensures { Adds result keys.new counts.new
            (add_bases (kind_of self.kind) (rule_of self.mode) self.k n keys.old counts.old label.now []) }
    {
        let mut noted = Noted::<WINDOWS>::new();
        let mut fresh = Fresh::<WINDOWS, WORDS>::new();
        let edges = label.len() - self.k;
        let new = self.make_vertices(label, n, keys, &mut noted, &mut fresh);
        if table::capacity(keys, counts) < n + new {
            return Err(AddError::Full);
        }
        noted.raise_known(self.kind, edges + 1, counts);
        let stored = table::join(
            n,
            keys,
            counts,
            new,
            &fresh.places,
            &fresh.keys,
            &fresh.counts,
        )?;
        Ok(Addition { edges, stored })
    }

    // For few windows in little room: more would take longer to clear than to use.
    fn add_bases(
        self,
        n: usize,
        keys: &mut [u64],
        counts: &mut [u32],
        label: &[u8],
    ) -> Result<Addition, AddError>
        requires { Addable self.k label.now n keys.old counts.old }
        ensures { Adds result keys.new counts.new
            (add_bases (kind_of self.kind) (rule_of self.mode) self.k n keys.old counts.old label.now []) }
    {
        if label.len() - self.k < 512 {
            self.add_in::<512, 1024>(n, keys, counts, label)
        } else {
            self.add_in::<4096, 8192>(n, keys, counts, label)
        }
    }

    // The label tested whole, then added, to a table that is known to be fit: refusal 4, a label shorter than K, 3, 6.
    pub(crate) fn add_to_fit(
        self,
        n: usize,
        keys: &mut [u64],
        counts: &mut [u32],
        label: &[u8],
    ) -> Result<Addition, AddError>
        requires { Ready (kind_of self.kind) self.k n keys.old counts.old }
        ensures { Adds result keys.new counts.new
            (add_label (kind_of self.kind) (rule_of self.mode) self.k n keys.old counts.old label.now) }
    {
        if 4096 < label.len() {
            return Err(AddError::TooLong(label.len()));
        }
        if label.len() < self.k {
            return Ok(Addition {
                edges: 0,
                stored: n,
            });
        }
        if let Some((place, byte)) = first_bad(label) {
            return Err(AddError::InvalidBase { place, byte });
        }
        self.add_bases(n, keys, counts, label)
    }

    // Refusals 1 and 5 before those of the label.
    pub(crate) fn add(
        self,
        n: usize,
        keys: &mut [u64],
        counts: &mut [u32],
        label: &[u8],
    ) -> Result<Addition, AddError>
        ensures { Adds result keys.new counts.new
            (add_label (kind_of self.kind) (rule_of self.mode) self.k n keys.old counts.old label.now) }
    {
        table::fit(self.kind, self.k, n, keys, counts)?;
        self.add_to_fit(n, keys, counts, label)
    }
}

// One label, to a table of n vertices.
pub fn add_label(
    kind: EdgeKind,
    mode: Mode,
    k: usize,
    n: usize,
    keys: &mut [u64],
    counts: &mut [u32],
    label: &[u8],
) -> Result<Addition, AddError>
    ensures { Adds result keys.new counts.new
        (add_label (kind_of kind) (rule_of mode) k n keys.old counts.old label.now) }
{
    Settings { kind, mode, k }.add(n, keys, counts, label)
}
