// What lines for standard output are made of.
use std::io::Write;
use std::{fmt, io};

// Written text in hexadecimal, `-` for none.
#[derive(Clone, Copy)]
pub(crate) struct Hex<'a>(pub &'a [u8]);

impl fmt::Display for Hex<'_> {
    fn fmt<W: fmt::Write>(&self, f: &mut fmt::Formatter<W>) -> fmt::Result {
        if self.0.is_empty() {
            return write!(f, "-");
        }
        for byte in self.0 {
            write!(f, "{byte:02x}")?;
        }
        Ok(())
    }
}

// The same, but by LENGTH:SUM if it is long.
#[derive(Clone, Copy)]
pub(crate) struct Text<'a>(pub &'a [u8]);

impl fmt::Display for Text<'_> {
    fn fmt<W: fmt::Write>(&self, f: &mut fmt::Formatter<W>) -> fmt::Result {
        let Text(bytes) = *self;
        if 600 < bytes.len() {
            write!(f, "{}:{}", bytes.len(), sum(bytes))
        } else {
            write!(f, "{}", Hex(bytes))
        }
    }
}

// The sum of bytes.
fn sum(bytes: &[u8]) -> usize {
    bytes
        .iter()
        .fold(0, |sum: usize, byte| sum.wrapping_add(usize::from(*byte)))
}

// Written errors, two numbers each: a space, and CODE or CODE@PLACE.
#[derive(Clone, Copy)]
pub(crate) struct Errors<'a> {
    pub numbers: &'a [u32],
    pub with_places: bool,
}

impl fmt::Display for Errors<'_> {
    fn fmt<W: fmt::Write>(&self, f: &mut fmt::Formatter<W>) -> fmt::Result {
        let (errors, _) = self.numbers.as_chunks::<2>();
        for [code, place] in errors {
            write!(f, " {code}")?;
            if self.with_places {
                write!(f, "@{place}")?;
            }
        }
        Ok(())
    }
}

// The end of a line, which tells of a call that touched what it had to leave.
pub(crate) fn end_line<W: Write>(output: &mut W, touched: bool) -> io::Result<()> {
    let end = if touched { " TOUCHED\n" } else { "\n" };
    write!(output, "{end}")
}
