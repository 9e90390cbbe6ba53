ghost use Rattle.std.specs.Prelude.{◌≡◌, ◌≤◌, Some, MatchResult};
ghost use Rattle.join.specs.Opening.{is_table, is_memory, refusal, Checked, SameLimits};

use crate::limits::Limits;
use machine::fault::OpenRefusal;
use rows::kind::Kind;

const LARGEST_BATCH: usize = 8192;

const LARGEST_TABLE: usize = 65_535;

// Numbers that passed the check. It is neither copied nor dropped: the making of a join uses it up.
pub struct Opening {
    limits: Limits,
}

impl Opening {
    // no From, which would be public
    pub(crate) fn into_limits(self) -> Limits
        ensures { SameLimits result self.limits }
    {
        let Opening { limits } = self;
        limits
    }
}

fn is_table_length(rows: usize) -> bool
    ensures { result ≡ is_table rows }
{
    (1..=LARGEST_TABLE).contains(&rows)
}

// The block holds less than a batch of entries when a run is passed, and beside them every row of the buffered table may then be
// noted alone.
fn has_memory(batch: usize, streamed: usize, buffered: usize, block: usize) -> bool
    requires { batch ≤ 8192 }
    ensures { result ≡ is_memory batch streamed buffered block }
{
    is_table_length(streamed) && is_table_length(buffered) && batch + buffered <= block
}

// Whether a join can be opened. It is asked with plain numbers, the kind's by the rules, a batch size, and the lengths of the
// streamed table, the buffered table and the block.
pub fn check(
    kind: u8,
    batch_size: usize,
    streamed_table: usize,
    buffered_table: usize,
    block: usize,
) -> Result<Opening, OpenRefusal>
    ensures { MatchResult result (λ o. Checked kind batch_size streamed_table buffered_table block o.limits) (λ e. refusal kind batch_size streamed_table buffered_table block ≡ Some e) }
{
    let kind = Kind::try_from(kind)?;
    if !(1..=LARGEST_BATCH).contains(&batch_size) {
        return Err(OpenRefusal::BatchSize);
    }
    if !has_memory(batch_size, streamed_table, buffered_table, block) {
        return Err(OpenRefusal::Memory);
    }
    Ok(Opening {
        limits: Limits {
            kind,
            batch: batch_size,
            streamed: streamed_table,
            buffered: buffered_table,
            block,
        },
    })
}
