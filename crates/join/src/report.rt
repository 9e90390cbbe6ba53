ghost use Rattle.std.specs.Prelude.{◌≡◌};
ghost use Rattle.machine.specs.Report.{reported};
ghost use Rattle.join.specs.Shows.{Memory, FitsMemory, core_of, state_of};

use crate::phase::Phase;
use crate::state::Join;
use machine::answer::{Report, State};

// With records due a join waits for the sink; otherwise the phase tells. The phase is what a join keeps between two calls, so
// it is matched here.
fn state_by(due: usize, phase: Phase) -> State
    ensures { result ≡ state_of due phase }
{
    if due > 0 {
        return State::Waiting;
    }
    match phase {
        Phase::Done => State::Finished,
        Phase::Stopped(_) => State::Stopped,
        Phase::Fetching { .. }
        | Phase::Seeding { .. }
        | Phase::Extending { .. }
        | Phase::Closing { .. }
        | Phase::Turning
        | Phase::Pairing(_)
        | Phase::Passing => State::Working,
    }
}

impl<K> Join<K> {
    // How far the join has come. What the tables, the block and the sources hold does not matter for it.
    pub(crate) fn report_now(&self) -> Report
        ensures { (m : Memory K) → FitsMemory self.now.limits m → result ≡ reported self.now.limits.kind (core_of self.now m) }
    {
        let read = self.buffered.base + self.buffered.held as u32;
        let (left_read, right_read) = self.limits.kind.oriented(self.streamed.read(), read);
        Report {
            state: state_by(self.queue.due, self.phase),
            turns: self.counts.turns,
            rows_passed: self.counts.rows,
            runs_passed: self.counts.runs,
            left_read,
            right_read,
            handed: self.counts.handed,
        }
    }
}
