ghost use Rattle.std.specs.Prelude.{◌≡◌, ℕ, ◌<◌, true};
ghost use Rattle.sources.specs.Layout.{Layout, ReadsBack};
ghost use Rattle.sources.specs.Keys.{frames, labels, good_presence, all_zero};
ghost use Rattle.std.proofs.Common.{rules};

use rows::key::{FrameKey, LabelKey};

// A kind of key in a log: how wide its bytes are and how they are read. `layout` says so to contracts, and how a key is
// written.
pub trait KeyKind {
    type Key: Copy;

    // the operand of the log's first command
    const CODE: u8;

    // how many bytes a key has
    const WIDTH: usize;

    ghost CODE: { ℕ };

    ghost WIDTH: { ℕ };

    ghost layout: { Layout Self.Key };

    // Whether the bytes are a key's.
    fn is_valid(bytes: &[u8]) -> bool
        ensures { result ≡ layout.valid bytes.now };

    // The key in bytes that are a key's. It answers for all bytes: a key that was found valid is not tested
    // again, and taking a batch cannot fail by its keys.
    fn decode(bytes: &[u8]) -> Self::Key
        ensures { result ≡ layout.decoded bytes.now };

    ghost code_is: { CODE ≡ layout.code };

    ghost width_is: { WIDTH ≡ layout.width };

    ghost narrow: { layout.width < 65536 };

    ghost back: { (key : Self.Key) → layout.fits key ≡ true → ReadsBack layout key };
}

fn is_zero(bytes: &[u8]) -> bool
    ensures { result ≡ all_zero bytes.now }
{
    for byte in bytes {
        if *byte != 0 {
            return false;
        }
    }
    true
}

fn has_presence(bytes: &[u8]) -> bool
    ensures { result ≡ good_presence bytes.now }
{
    match bytes {
        [1, ..] => true,
        [0, missing @ ..] => is_zero(missing),
        _ => false,
    }
}

// Frame keys: node 2, presence 1, number 4.
#[derive(Clone, Copy)]
pub struct Frames;

impl KeyKind for Frames {
    type Key = FrameKey;

    const CODE: u8 = 1;

    const WIDTH: usize = 7;

    ghost CODE = { 1 };

    ghost WIDTH = { 7 };

    ghost layout = { frames };

    ghost code_is = { Prim.search rules };

    ghost width_is = { Prim.search rules };

    ghost narrow = { Prim.search rules };

    ghost back = { Prim.search rules };

    fn is_valid(bytes: &[u8]) -> bool {
        if bytes.len() != Self::WIDTH {
            return false;
        }
        let (_, number) = bytes.split_at(2);
        has_presence(number)
    }

    fn decode(bytes: &[u8]) -> FrameKey {
        let [n0, n1, presence, a, b, c, d] = bytes else {
            return FrameKey {
                node: 0,
                number: None,
            };
        };
        let number = u32::from_be_bytes([*a, *b, *c, *d]);
        FrameKey {
            node: u16::from_be_bytes([*n0, *n1]),
            number: if *presence == 1 { Some(number) } else { None },
        }
    }
}

// Label keys: presence 1, label 12.
#[derive(Clone, Copy)]
pub struct Labels;

impl KeyKind for Labels {
    type Key = LabelKey;

    const CODE: u8 = 2;

    const WIDTH: usize = 13;

    ghost CODE = { 2 };

    ghost WIDTH = { 13 };

    ghost layout = { labels };

    ghost code_is = { Prim.search rules };

    ghost width_is = { Prim.search rules };

    ghost narrow = { Prim.search rules };

    ghost back = { Prim.search rules };

    fn is_valid(bytes: &[u8]) -> bool {
        bytes.len() == Self::WIDTH && has_presence(bytes)
    }

    fn decode(bytes: &[u8]) -> LabelKey {
        let [1, label @ ..] = bytes else {
            return LabelKey { label: None };
        };
        match <[u8; 12]>::try_from(label) {
            Ok(label) => LabelKey { label: Some(label) },
            Err(_) => LabelKey { label: None },
        }
    }
}
