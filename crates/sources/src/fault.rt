ghost use Rattle.std.specs.Prelude.{◌≡◌};
ghost use Rattle.sources.specs.Faults.{number_of, layer_of, place_of};

// What is wrong with a source. Each case has a number, the layer that found it, and a place there; of a log, whose layer
// is 0, the place is the byte of the command at fault.
#[derive(Clone, Copy, PartialEq, Eq, Debug)]
pub enum SourceFault {
    // the log does not begin with its key kind
    NoHeader(u64),
    // no command has this byte, or none may stand there
    BadCommand(u64),
    // the bytes run out; with no command begun, the place is the length
    RunsOut(u64),
    // a presence is neither 0 nor 1, or a missing key has bytes that are not zero
    BadPresence(u64),
}

impl SourceFault {
    // the layer of a log
    const LOG_LAYER: u8 = 0;

    // The cases have fields, so their numbers stand here and not at the cases.
    pub fn number(&self) -> u8
        ensures { result ≡ number_of self.now }
    {
        match *self {
            SourceFault::NoHeader(_) => 20,
            SourceFault::BadCommand(_) => 21,
            SourceFault::RunsOut(_) => 22,
            SourceFault::BadPresence(_) => 23,
        }
    }

    pub fn layer(&self) -> u8
        ensures { result ≡ layer_of self.now }
    {
        Self::LOG_LAYER
    }

    pub fn place(&self) -> u64
        ensures { result ≡ place_of self.now }
    {
        match *self {
            SourceFault::NoHeader(place)
            | SourceFault::BadCommand(place)
            | SourceFault::RunsOut(place)
            | SourceFault::BadPresence(place) => place,
        }
    }
}
