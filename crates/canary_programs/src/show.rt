//! Writing a text out, and the names that words spell.
ghost use Rattle.std.specs.Prelude.{◌≡◌, OnOk, IfErr};
ghost use Rattle.std.specs.Io.KnownBytes.{Appends};
ghost use Rattle.canary_programs.specs.declared.fault.Fault.TheVariants as fault;
ghost use Rattle.canary_programs.specs.Programs.{IsNamed};

use crate::fault::Fault;
use canary_base::names::Name;
use std::io::Write;

/// Writes a text out.
///
/// # Errors
/// `Write` if the output failed.
pub fn show<W: Write>(text: &str, output: &mut W) -> Result<(), Fault>
    ensures ok { OnOk result (Appends (W.contents output.old) (W.contents output.new) text.now) }
    ensures err { IfErr result (λ f. f ≡ fault.Write) }
{
    match output.write_all(text.as_bytes()) {
        Ok(()) => Ok(()),
        Err(_) => Err(Fault::Write),
    }
}

/// The name that a word spells.
///
/// # Errors
/// `BadName` if the name is invalid.
pub fn name_of(word: &str) -> Result<Name, Fault>
    ensures { IsNamed word.now result }
{
    match Name::read(word.as_bytes()) {
        Some(name) => Ok(name),
        None => Err(Fault::BadName),
    }
}
