// Lines of text: an answer, and the entries of a lent list as the call left them.
use std::io::AsBytes;
use std::{fmt, io};
use terms::{Answer, Refusal};

// What a call came to: what it made, or the number of its refusal.
#[derive(Clone, Copy)]
pub struct Told<T>(pub Result<T, Refusal>);

impl<T: fmt::Display> fmt::Display for Told<T> {
    fn fmt<W: fmt::Write>(&self, f: &mut fmt::Formatter<W>) -> fmt::Result {
        match &self.0 {
            Ok(made) => write!(f, "{made}"),
            Err(why) => write!(f, "refused {}", u32::from(*why)),
        }
    }
}

// The entries or bytes that a call wrote.
#[derive(Clone, Copy)]
pub struct Wrote(pub u64);

impl fmt::Display for Wrote {
    fn fmt<W: fmt::Write>(&self, f: &mut fmt::Formatter<W>) -> fmt::Result {
        write!(f, "wrote {}", self.0)
    }
}

// Numbers, each after a space.
#[derive(Clone, Copy)]
pub struct Spaced<'a>(pub &'a [u64]);

impl fmt::Display for Spaced<'_> {
    fn fmt<W: fmt::Write>(&self, f: &mut fmt::Formatter<W>) -> fmt::Result {
        for n in self.0 {
            write!(f, " {n}")?;
        }
        Ok(())
    }
}

// Bytes, two hexadecimal digits each.
#[derive(Clone, Copy)]
pub struct Hex<'a>(pub &'a [u8]);

impl fmt::Display for Hex<'_> {
    fn fmt<W: fmt::Write>(&self, f: &mut fmt::Formatter<W>) -> fmt::Result {
        for byte in self.0 {
            write!(f, "{byte:02x}")?;
        }
        Ok(())
    }
}

// A line: what was called, its answer, and the list that it left. What was called is any bytes, text or not.
pub fn answer(
    rt: &impl Print,
    what: impl AsBytes + Drop,
    answer: Answer,
    list: &[u64],
) -> io::Result<()> {
    rt.write_all(what.as_byte_slice())?;
    println!(rt; ": {}{}", Told(answer.map(Wrote)), Spaced(list))
}
