ghost use Rattle.std.specs.Prelude.{◌≡◌};
ghost use Rattle.hopmap.specs.KeyKinds.{told};
ghost use Rattle.hopmap.specs.declared.settings.Settings.{Settings as SettingsOf};

use crate::settings::Settings;
use orders::key_orders::{FrameOrder, LabelOrder};
use rows::order::KeyOrder;
use sources::kind::{Frames, KeyKind, Labels};

// The kinds of key that a log can have.
#[derive(Clone, Copy, PartialEq, Eq, Debug)]
pub enum LogKind {
    Frame,
    Label,
}

// The kind of key that a log's first two bytes tell, none where they tell none.
pub fn told_kind(bytes: &[u8]) -> Option<LogKind>
    ensures { result ≡ told bytes.now }
{
    match bytes {
        [0, 1, ..] => Some(LogKind::Frame),
        [0, 2, ..] => Some(LogKind::Label),
        _ => None,
    }
}

// A kind of key whose logs are shown and joined: how its keys are read, and how they are ordered.
pub trait LogKey: KeyKind + Copy {
    type Order: KeyOrder<Key = Self::Key> + Drop;

    ghost ordered: { SettingsOf → Self.Order };

    // The order that the settings ask for.
    fn order(settings: &Settings) -> Self::Order
        ensures { result ≡ ordered settings.now };
}

impl LogKey for Frames {
    type Order = FrameOrder;

    ghost ordered = { λ s. record { node = s.choices.direction; number = s.choices } };

    fn order(settings: &Settings) -> FrameOrder {
        FrameOrder::new(settings.choices.direction, settings.choices)
    }
}

impl LogKey for Labels {
    type Order = LabelOrder;

    ghost ordered = { λ s. record { label = s.choices } };

    fn order(settings: &Settings) -> LabelOrder {
        LabelOrder::new(settings.choices)
    }
}
