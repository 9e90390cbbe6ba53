ghost use Rattle.std.specs.Prelude.{◌≡◌};
ghost use Rattle.sinks.specs.Caps.{Capped, cap_fits, capped_after, CapHandsOn};

use crate::sink::{Sink, Unfit};
use rows::record::Record;

// Hands on at most so many records to the sink below.
#[derive(Drop)]
pub struct Cap<S> {
    pub inner: S,
    // the takes left
    left: u64,
}

impl<S: Sink> Cap<S> {
    // A cap of n takes.
    #[tactic(auto, using(crate::proofs::Laws::cap_hands_on))]
    pub fn new(inner: S, n: u64) -> Cap<S>
        ensures made { result ≡ record { inner = inner; left = n } }
        ensures hands_on { CapHandsOn S.Sink.fitting S.Sink.after }
    {
        Cap { inner, left: n }
    }
}

impl<S> Cap<S> {
    // The takes left.
    pub fn left(&self) -> u64
        ensures { result ≡ self.now.left }
    {
        self.left
    }

    // The sink below and the takes left.
    pub fn into_parts(self) -> (S, u64)
        ensures { result ≡ (self.inner, self.left) }
    {
        let Cap { inner, left } = self;
        (inner, left)
    }
}

impl<S: Sink> Sink for Cap<S> {
    ghost Value = { Capped S.Sink.Value };

    ghost value = { λ s. record { left = s.left; inner = S.Sink.value s.inner } };

    ghost fitting = { cap_fits S.Sink.fitting };

    ghost after = { capped_after S.Sink.after };

    fn fits(&self, x: Record) -> bool {
        0 < self.left && self.inner.fits(x)
    }

    fn take(&mut self, x: Record) -> Result<(), Unfit> {
        let left = self.left.checked_sub(1).ok_or(Unfit)?;
        self.inner.take(x)?;
        self.left = left;
        Ok(())
    }
}
