ghost use Rattle.std.specs.Prelude.{◌+◌, ◌<◌, ◌≤◌};

use rows::kind::Kind;

// What a join is opened with, checked: the kind, the batch size, and the lengths of the streamed table, the buffered table and
// the block.
#[derive(Clone, Copy)]
pub struct Limits {
    pub(crate) kind: Kind,
    pub(crate) batch: usize,
    pub(crate) streamed: usize,
    pub(crate) buffered: usize,
    pub(crate) block: usize,
    ghost some: { 0 < batch },
    ghost small: { batch ≤ 8192 },
    ghost ours_some: { 1 ≤ streamed },
    ghost ours: { streamed ≤ 65535 },
    ghost theirs_some: { 1 ≤ buffered },
    ghost theirs: { buffered ≤ 65535 },
    ghost room: { batch + buffered ≤ block },
}
