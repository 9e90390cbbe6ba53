use machine::answer::Answer;
use machine::fault::JoinFault;
use rows::record::Record;

// What a small step comes to: another one, a record handed over, or the answer of the call.
#[derive(Clone, Copy)]
pub enum Step {
    Going,
    Handed(Record),
    Said(Result<Answer, JoinFault>),
}
