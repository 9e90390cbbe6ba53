ghost use Rattle.std.specs.Prelude.{[], ◌∷◌, Some as Known};
ghost use Rattle.std.specs.Fmt.{WritesOnOk};
ghost use Rattle.rows.specs.Texts.{hexadecimal};

use std::fmt;

// Shows bytes as two hexadecimal digits each.
#[derive(Clone, Copy)]
pub(crate) struct Hex(pub [u8; 12]);

impl fmt::Display for Hex {
    ghost output = { λ h. Known (hexadecimal h.0) };

    fn fmt<W: fmt::Write>(&self, f: &mut fmt::Formatter<W>) -> fmt::Result {
        write_bytes(&self.0, f)
    }
}

fn write_bytes<W: fmt::Write>(bytes: &[u8], f: &mut fmt::Formatter<W>) -> fmt::Result
    ensures prints { WritesOnOk W.Write.write_str_gives f.old result (hexadecimal bytes.now) f.new }
{
    for b in bytes {
        write_byte(*b, f)?;
    }
    Ok(())
}

fn write_byte<W: fmt::Write>(byte: u8, f: &mut fmt::Formatter<W>) -> fmt::Result
    ensures prints { WritesOnOk W.Write.write_str_gives f.old result (hexadecimal (byte ∷ [])) f.new }
{
    let Some(high) = char::from_digit(u32::from(byte / 16), 16) else {
        unreachable()
    };
    let Some(low) = char::from_digit(u32::from(byte % 16), 16) else {
        unreachable()
    };
    write!(f, "{high}{low}")
}
