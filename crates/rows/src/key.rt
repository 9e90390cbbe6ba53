ghost use Rattle.rows.specs.Texts.{frame_key_text, label_key_text};

use crate::dash::OrDash;
use crate::hex::Hex;
use std::fmt;

// The key of a frame: the node that sent it and the frame's number, which may be missing.
#[derive(Clone, Copy, PartialEq, Eq, Debug, Default)]
pub struct FrameKey {
    pub node: u16,
    pub number: Option<u32>,
}

impl fmt::Display for FrameKey {
    ghost output = { frame_key_text };

    fn fmt<W: fmt::Write>(&self, f: &mut fmt::Formatter<W>) -> fmt::Result {
        let node = self.node;
        let number = OrDash(self.number);
        write!(f, "node {node} frame {number}")
    }
}

// The key of a labelled row: twelve bytes, which may be missing.
#[derive(Clone, Copy, PartialEq, Eq, Debug, Default)]
pub struct LabelKey {
    pub label: Option<[u8; 12]>,
}

impl fmt::Display for LabelKey {
    ghost output = { label_key_text };

    fn fmt<W: fmt::Write>(&self, f: &mut fmt::Formatter<W>) -> fmt::Result {
        let label = OrDash(self.label.map(Hex));
        write!(f, "label {label}")
    }
}
