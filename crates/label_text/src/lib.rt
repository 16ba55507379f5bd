// The text that people write, FASTA or one label a line, as a label file.
#![tactic(auto)]

ghost use Rattle.std.specs.Prelude.{◌≡◌};
ghost use Rattle.label_text.specs.declared.PackError.TheVariants as pack;

mod lines;
mod packing;

use dna::NoRoom;
pub use packing::pack;

// That the text has a `>` and does not begin with one, so that it is neither FASTA nor labels, one a line; that the
// file would be over 16,384 bytes; that the slice is too short for it.
#[derive(Clone, Copy, PartialEq, Eq, Debug)]
pub enum PackError {
    Mixed,
    TooLarge,
    NoRoom,
}

// A file would be over 16,384 bytes.
#[derive(Clone, Copy, PartialEq, Eq, Debug)]
struct TooLarge;

impl From<TooLarge> for PackError {
    ghost from_gives = { λ _ e. e ≡ pack.TooLarge };

    fn from(_error: TooLarge) -> PackError {
        PackError::TooLarge
    }
}

impl From<NoRoom> for PackError {
    ghost from_gives = { λ _ e. e ≡ pack.NoRoom };

    fn from(_error: NoRoom) -> PackError {
        PackError::NoRoom
    }
}
