ghost use Rattle.std.specs.Prelude.{◌≡◌};
ghost use Rattle.pipeline.specs.Orient.{paired, streamed_alone, buffered_alone, without_partner, buffered_place};

use rows::kind::Kind;
use rows::record::Record;

// The record of a streamed and a buffered place.
pub fn paired_record(kind: Kind, streamed: u32, buffered: u32) -> Record
    ensures { result ≡ paired kind streamed buffered }
{
    let (left, right) = kind.oriented(streamed, buffered);
    Record::Pair(left, right)
}

pub fn streamed_record(kind: Kind, streamed: u32) -> Record
    ensures { result ≡ streamed_alone kind streamed }
{
    Record::alone(kind.streamed_side(), streamed)
}

pub fn buffered_record(kind: Kind, buffered: u32) -> Record
    ensures { result ≡ buffered_alone kind buffered }
{
    Record::alone(kind.buffered_side(), buffered)
}

// What is left of a pair that fails: its streamed row alone.
pub fn lone_record(kind: Kind, pair: Record) -> Record
    ensures { result ≡ without_partner kind pair }
{
    match pair {
        Record::Pair(left, right) => {
            let (streamed, _) = kind.oriented(left, right);
            streamed_record(kind, streamed)
        }
        alone => alone,
    }
}

// The place of a pair's buffered row.
pub fn partner_place(kind: Kind, pair: Record) -> u32
    ensures { result ≡ buffered_place kind pair }
{
    match pair {
        Record::Pair(left, right) => {
            let (_, buffered) = kind.oriented(left, right);
            buffered
        }
        Record::LeftAlone(place) | Record::RightAlone(place) => place,
    }
}
