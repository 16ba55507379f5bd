// The lent marks as the walks use them: Front's edge in the lowest three bits, Back's in the next three, visited in the
// bit above.
#![tactic(auto)]

mod ahead;
mod making;

pub use ahead::{base_of, edge_in, enter, is_skipped, leaving_base};
pub use making::{clear, digest, settle};
