//! Writing bytes whole.
ghost use Rattle.std.specs.Prelude.{Some, codes};
ghost use Rattle.canary_base.specs.Writes.{Writes};

use std::error::Error;
use std::fmt;
use std::io::Write;

/// The writer failed, or took no byte.
#[derive(Clone, Copy, Debug, PartialEq, Eq)]
pub struct WriteFault;

impl fmt::Display for WriteFault {
    ghost output = { λ _. Some (codes "the output could not be written") };

    // Writes the message, the same for each writer.
    fn fmt<W: fmt::Write>(&self, f: &mut fmt::Formatter<W>) -> fmt::Result {
        write!(f, "the output could not be written")
    }
}

impl Error for WriteFault {}

/// Writes all of these bytes, by as many writes as it takes. It takes no memory.
///
/// # Errors
/// `WriteFault` if the writer failed, or took no byte; what went out are the first of the bytes,
/// and not all of them.
pub fn write_all<W: Write>(writer: &mut W, text: &[u8]) -> Result<(), WriteFault>
    ensures { Writes (W.contents writer.old) (W.contents writer.new) text.now result }
{
    let mut rest = text;
    while !rest.is_empty() {
        match writer.write(rest) {
            Ok(0) => return Err(WriteFault),
            Ok(n) => {
                let (_, after) = rest.split_at(n);
                rest = after;
            }
            Err(_) => return Err(WriteFault),
        }
    }
    Ok(())
}
