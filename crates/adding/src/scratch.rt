// Where a label's windows are kept while it is added: room for at most WINDOWS of them. The ghost fields say the
// arrays' lengths where proofs read them.
ghost use Rattle.std.specs.Prelude.{◌≡◌, ◌≤◌, ◌*◌, length};

// What is noted of each window, and the place of its k-mer.
#[derive(Drop)]
pub(crate) struct Noted<const WINDOWS: usize> {
    pub(crate) notes: [u8; WINDOWS],
    pub(crate) places: [u32; WINDOWS],
    ghost few: { WINDOWS ≤ 4096 },
    ghost notes_long: { length notes ≡ WINDOWS },
    ghost places_long: { length places ≡ WINDOWS },
}

// The new k-mers: the offsets of their windows, their words, two for each, their places and their counters.
#[derive(Drop)]
pub(crate) struct Fresh<const WINDOWS: usize, const WORDS: usize> {
    pub(crate) offsets: [u32; WINDOWS],
    pub(crate) keys: [u64; WORDS],
    pub(crate) places: [u32; WINDOWS],
    pub(crate) counts: [u32; WINDOWS],
    ghost few: { WINDOWS ≤ 4096 },
    ghost pairs: { WORDS ≡ 2 * WINDOWS },
    ghost offsets_long: { length offsets ≡ WINDOWS },
    ghost keys_long: { length keys ≡ WORDS },
    ghost places_long: { length places ≡ WINDOWS },
    ghost counts_long: { length counts ≡ WINDOWS },
}

impl<const WINDOWS: usize> Noted<WINDOWS> {
    pub(crate) fn new() -> Self
        requires { WINDOWS ≤ 4096 }
    {
        Noted {
            notes: [0; WINDOWS],
            places: [0; WINDOWS],
        }
    }
}

impl<const WINDOWS: usize, const WORDS: usize> Fresh<WINDOWS, WORDS> {
    pub(crate) fn new() -> Self
        requires few { WINDOWS ≤ 4096 }
        requires pairs { WORDS ≡ 2 * WINDOWS }
    {
        Fresh {
            offsets: [0; WINDOWS],
            keys: [0; WORDS],
            places: [0; WINDOWS],
            counts: [0; WINDOWS],
        }
    }
}
