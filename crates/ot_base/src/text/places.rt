ghost use Rattle.std.specs.Prelude.{Some, flat_map};
ghost use Rattle.ot_base.specs.PlaceText.{escaped, escaped_byte, hexadecimal_byte, place_text, is_plain};
ghost use Rattle.std.specs.Prelude.{◌≡◌};

use std::fmt;

/// A byte in two lower-case hexadecimal digits.
#[derive(Clone, Copy)]
struct HexadecimalByte(u8);

impl fmt::Display for HexadecimalByte {
    ghost output = { λ b. Some (hexadecimal_byte b.0) };

    fn fmt<W: fmt::Write>(&self, f: &mut fmt::Formatter<W>) -> fmt::Result {
        let byte = self.0;
        write!(f, "{byte:02x}")
    }
}

/// Bytes in two lower-case hexadecimal digits each, with nothing between them.
#[derive(Clone, Copy)]
pub struct Hexadecimal<'a>(pub &'a [u8]);

impl fmt::Display for Hexadecimal<'_> {
    ghost output = { λ b. Some (flat_map hexadecimal_byte b.0.now) };

    fn fmt<W: fmt::Write>(&self, f: &mut fmt::Formatter<W>) -> fmt::Result {
        for byte in self.0 {
            write!(f, "{}", HexadecimalByte(*byte))?;
        }
        Ok(())
    }
}

fn is_plain(byte: u8) -> bool
    ensures { result ≡ is_plain byte }
{
    0x21 <= byte && byte <= 0x7e && byte != 0x5c
}

#[derive(Clone, Copy)]
struct EscapedByte(u8);

impl fmt::Display for EscapedByte {
    ghost output = { λ b. Some (escaped_byte b.0) };

    fn fmt<W: fmt::Write>(&self, f: &mut fmt::Formatter<W>) -> fmt::Result {
        let byte = self.0;
        if is_plain(byte) {
            f.write_char(byte as char)
        } else {
            write!(f, "\\{}", HexadecimalByte(byte))
        }
    }
}

/// A name, byte by byte: each byte from 21 to 7E other than the backslash as it is, and each other one
/// as a backslash and two lower-case hexadecimal digits.
#[derive(Clone, Copy)]
pub struct Escaped<'a>(pub &'a [u8]);

impl fmt::Display for Escaped<'_> {
    ghost output = { λ e. Some (escaped e.0.now) };

    fn fmt<W: fmt::Write>(&self, f: &mut fmt::Formatter<W>) -> fmt::Result {
        for byte in self.0 {
            write!(f, "{}", EscapedByte(*byte))?;
        }
        Ok(())
    }
}

/// A place, by its section's name: the name, `+0x`, and the offset in hexadecimal.
#[derive(Clone, Copy)]
pub struct PlaceText<'a> {
    /// The section's name.
    pub section: &'a [u8],
    /// Bytes from the section's start.
    pub off: u64,
}

impl fmt::Display for PlaceText<'_> {
    ghost output = { λ p. Some (place_text p.section.now p.off) };

    fn fmt<W: fmt::Write>(&self, f: &mut fmt::Formatter<W>) -> fmt::Result {
        write!(f, "{}+0x{:x}", Escaped(self.section), self.off)
    }
}
