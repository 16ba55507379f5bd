// The index of a label file.
ghost use Rattle.std.specs.Prelude.{◌≡◌, length};
ghost use Rattle.label_file.specs.Says.{Sound, Indexes};

use super::form;

// The start and the length of each label. A file of at most 16,384 bytes has fewer than 4,096 records, since each has
// at least four.
pub(crate) fn index_labels(file: &[u8], starts: &mut [u32], lengths: &mut [u32]) -> usize
    requires { Sound file.now × (length starts.old ≡ 4096) × (length lengths.old ≡ 4096) }
    ensures { Indexes file.now result starts.new lengths.new }
{
    let mut i = 0;
    let mut at = 7;
    while at < file.len() {
        let size = form::two_bytes(file, at + 2);
        starts[i] = (at + 4) as u32;
        lengths[i] = size as u32;
        at += 4 + size;
        i += 1;
    }
    i
}
