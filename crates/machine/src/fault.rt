ghost use Rattle.std.specs.Prelude.{◌≡◌};
ghost use Rattle.machine.specs.declared.fault.OpenRefusal.TheVariants.{Kind};
ghost use Rattle.machine.specs.declared.fault.TurnRefusal.TheVariants.{Stopped};
ghost use Rattle.machine.specs.Refusals.{open_refusal, join_fault, turn_refusal};

use rows::kind::{Side, UnknownKind};
use sources::fault::SourceFault;

// Why no join was opened.
#[derive(Clone, Copy, PartialEq, Eq, Debug)]
pub enum OpenRefusal {
    // no kind has the number
    Kind = 1,
    // the batch size lies outside 1 to 8,192
    BatchSize = 2,
    // a table lies outside 1 to 65,535 rows, or the block is shorter than batch size plus buffered table
    Memory = 3,
}

// What stops a join.
#[derive(Clone, Copy, PartialEq, Eq, Debug)]
pub enum JoinFault {
    // the key of the row at the place is before its predecessor's
    Unsorted { side: Side, place: u32 },
    // the rows held and the next batch exceed the table
    TableFull { side: Side, first: u32 },
    // as many buffered batches are held as can be
    TooManyBatches { first: u32 },
    // a side would have more rows than places
    TooManyRows { side: Side, first: u32 },
    // the source faults
    Source { side: Side, fault: SourceFault },
}

// Why a turn was refused: a table or the block has another length than at opening, and nothing changed; or the join stopped.
#[derive(Clone, Copy, PartialEq, Eq, Debug)]
pub enum TurnRefusal {
    Lengths,
    Stopped(JoinFault),
}

// Each refusal and fault has a number, and names the side, the place or the source's fault that it is about.

impl OpenRefusal {
    pub fn number(&self) -> u8
        ensures { result ≡ (open_refusal self.now).number }
    {
        *self as u8
    }
}

impl From<UnknownKind> for OpenRefusal {
    ghost from_gives = { λ e r. r ≡ Kind };

    fn from(_: UnknownKind) -> OpenRefusal {
        OpenRefusal::Kind
    }
}

impl JoinFault {
    // The cases have fields, so their numbers stand here and not at the cases.
    pub fn number(&self) -> u8
        ensures { result ≡ (join_fault self.now).number }
    {
        match *self {
            JoinFault::Unsorted { .. } => 5,
            JoinFault::TableFull { .. } => 6,
            JoinFault::TooManyBatches { .. } => 7,
            JoinFault::TooManyRows { .. } => 8,
            JoinFault::Source { .. } => 9,
        }
    }

    pub fn side(&self) -> Option<Side>
        ensures { result ≡ (join_fault self.now).side }
    {
        match *self {
            JoinFault::Unsorted { side, .. }
            | JoinFault::TableFull { side, .. }
            | JoinFault::TooManyRows { side, .. }
            | JoinFault::Source { side, .. } => Some(side),
            JoinFault::TooManyBatches { .. } => None,
        }
    }

    // The place of the row at fault, or of the first row of the batch that was not taken.
    pub fn place(&self) -> Option<u32>
        ensures { result ≡ (join_fault self.now).place }
    {
        match *self {
            JoinFault::Unsorted { place, .. } => Some(place),
            JoinFault::TableFull { first, .. }
            | JoinFault::TooManyBatches { first }
            | JoinFault::TooManyRows { first, .. } => Some(first),
            JoinFault::Source { .. } => None,
        }
    }

    // The source's fault, whole.
    pub fn source_fault(&self) -> Option<SourceFault>
        ensures { result ≡ (join_fault self.now).fault }
    {
        match *self {
            JoinFault::Source { fault, .. } => Some(fault),
            JoinFault::Unsorted { .. }
            | JoinFault::TableFull { .. }
            | JoinFault::TooManyBatches { .. }
            | JoinFault::TooManyRows { .. } => None,
        }
    }
}

impl TurnRefusal {
    // A case has a field, so the numbers stand here.
    pub fn number(&self) -> u8
        ensures { result ≡ (turn_refusal self.now).number }
    {
        match *self {
            TurnRefusal::Lengths => 4,
            TurnRefusal::Stopped(fault) => fault.number(),
        }
    }
}

impl From<JoinFault> for TurnRefusal {
    ghost from_gives = { λ e r. r ≡ Stopped e };

    fn from(e: JoinFault) -> TurnRefusal {
        TurnRefusal::Stopped(e)
    }
}
