ghost use Rattle.std.specs.Prelude.{◌≡◌, ◌+◌, ◌-◌, ◌≤◌, Bool, true, false, [], ◌++◌, length, drop, replicate, if◌then◌else◌, is_ok, nat_le};
ghost use Rattle.pipeline.specs.States.{states_of, marked, mark_at, state_at};
ghost use Rattle.pipeline.specs.declared.states.FilterState.TheVariants.{Unvisited};

use crate::refused::Refused;
use crate::states::{FilterState, States};

impl FilterState {
    // The state after one verdict more.
    pub fn after(self, yes: bool) -> FilterState
        ensures { result ≡ marked yes self }
    {
        match (self, yes) {
            (_, true) | (FilterState::SomePassed, _) => FilterState::SomePassed,
            (FilterState::Unvisited | FilterState::AllFailed, false) => FilterState::AllFailed,
        }
    }
}

impl States {
    pub const MOST: usize = 65_535;

    pub fn new() -> States
        ensures { states_of result ≡ [] }
    {
        States {
            cells: [FilterState::Unvisited; 65535],
            len: 0,
        }
    }

    // The state of a row, none where it is not held.
    pub fn get(&self, i: usize) -> Option<FilterState>
        ensures { result ≡ state_at i (states_of self.now) }
    {
        // By cases, and not by the library's `get`: an edit of one case is then refused for the value that it answers.
        if i < self.len {
            Some(self.cells[i])
        } else {
            None
        }
    }

    // A verdict on a pair of the row; of a row that is not held it changes nothing.
    pub fn mark(&mut self, i: usize, yes: bool)
        ensures { states_of self.new ≡ mark_at i yes (states_of self.old) }
    {
        if i < self.len {
            self.cells[i] = self.cells[i].after(yes);
        }
    }

    // Rows come to the held ones; refused where there is no space for them.
    pub fn hold(&mut self, rows: usize) -> Result<(), Refused>
        ensures answer { is_ok result ≡ nat_le (length (states_of self.old) + rows) 65535 }
        ensures left { states_of self.new ≡ (if is_ok result then states_of self.old ++ replicate rows Unvisited else states_of self.old) }
    {
        if rows > Self::MOST - self.len {
            return Err(Refused);
        }
        let end = self.len + rows;
        self.cells[self.len..end].fill(FilterState::Unvisited);
        self.len = end;
        Ok(())
    }

    // The first rows are no longer held, and the others move to the front.
    pub fn drop_front(&mut self, rows: usize)
        ensures { states_of self.new ≡ drop rows (states_of self.old) }
    {
        let gone = rows.min(self.len);
        let len = self.len;
        self.cells.copy_within(gone..len, 0);
        self.len -= gone;
    }
}

#[cfg(test)]
mod tests {
    use super::*;

    #[test]
    fn a_yes_stays(rt: HostRuntime) {
        assert_eq!(rt; FilterState::Unvisited.after(false), FilterState::AllFailed);
        assert_eq!(rt; FilterState::AllFailed.after(true), FilterState::SomePassed);
        assert_eq!(rt;
            FilterState::SomePassed.after(false),
            FilterState::SomePassed
        );
    }

    #[test]
    fn holds_a_full_table(rt: HostRuntime) {
        let mut states = States::new();
        assert_eq!(rt; states.hold(States::MOST - 1), Ok(()));
        assert_eq!(rt; states.hold(2), Err(Refused));
        assert_eq!(rt; states.hold(1), Ok(()));
        states.mark(States::MOST - 1, false);
        states.mark(States::MOST, true);
        assert_eq!(rt; states.get(States::MOST), None);
        states.drop_front(States::MOST - 1);
        assert_eq!(rt; states.get(0), Some(FilterState::AllFailed));
        assert_eq!(rt; states.get(1), None);
        assert_eq!(rt; states.hold(1), Ok(()));
        assert_eq!(rt; states.get(1), Some(FilterState::Unvisited));
    }
}
