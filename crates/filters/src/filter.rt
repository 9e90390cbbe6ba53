ghost use Rattle.std.specs.Prelude.{◌≡◌};
ghost use Rattle.rows.specs.declared.reading.Reading.{Reading as ReadingOf};
ghost use Rattle.filters.specs.declared.filter.Verdict.{Verdict as VerdictOf};
ghost use Rattle.filters.specs.Verdicts.{is_yes, lets_through, decided, and};

use rows::reading::Reading;

// What a filter says of a pair; unknown counts as no.
// The words are the rules' own: as an Option<bool>, no would read Some(false).
#[derive(Clone, Copy, PartialEq, Eq, Debug)]
pub enum Verdict {
    Yes,
    No,
    Unknown,
}

impl Verdict {
    pub fn is_yes(self) -> bool
        ensures { result ≡ is_yes self }
    {
        self == Verdict::Yes
    }

    // AND as SQL has it.
    pub fn and(self, other: Verdict) -> Verdict
        ensures { result ≡ and self other }
    {
        match (self, other) {
            (Verdict::No, _) | (_, Verdict::No) => Verdict::No,
            (Verdict::Yes, Verdict::Yes) => Verdict::Yes,
            _ => Verdict::Unknown,
        }
    }
}

// The verdict of a test whose answer is known.
impl From<bool> for Verdict {
    ghost from_gives = { λ passed verdict. verdict ≡ decided passed };

    fn from(passed: bool) -> Verdict {
        if passed { Verdict::Yes } else { Verdict::No }
    }
}

// A filter's verdict depends on the left and the right reading alone.
pub trait Filter {
    ghost says: { Self → ReadingOf → ReadingOf → VerdictOf };

    fn ask(&self, left: &Reading, right: &Reading) -> Verdict
        ensures { result ≡ says self.now left.now right.now };
}

// Whether there is no filter, or it says yes.
pub fn lets_through<F: Filter>(filter: &Option<F>, left: &Reading, right: &Reading) -> bool
    ensures { result ≡ lets_through F.says filter.now left.now right.now }
{
    match filter {
        None => true,
        Some(filter) => filter.ask(left, right).is_yes(),
    }
}
