//! The message to a provider, whole (RFC 9110, RFC 9112).
ghost use Rattle.std.specs.Prelude.{◌≡◌, ◌++◌, flat_map, IsTrue, IfOk, OnOk};
ghost use Rattle.std.specs.List.{list_all};
ghost use Rattle.canary_provider.specs.Lines.{is_line};
ghost use Rattle.canary_provider.specs.Messages.{ended, message, lines_of};

use crate::line::HeaderLine;
use crate::plan::Provider;
use canary_base::error::Memory;
use std::alloc::Global;

/// The message that asks the provider. It may have a secret in a header: print nothing of it.
///
/// # Errors
/// `Memory` if an allocation was refused.
pub fn message_of(alloc: Global, provider: &Provider) -> Result<Vec<u8>, Memory>
    // It has these lines, each with its end, an empty one, and the body.
    ensures bytes { IfOk result
        (λ bytes. bytes.items ≡ message (lines_of provider.now) provider.now.body.items) }
    // None of them has an end of a line in it.
    ensures lines { OnOk result (IsTrue (list_all is_line (lines_of provider.now))) }
{
    let mut bytes = Vec::new(alloc);
    put(&mut bytes, &provider.first)?;
    put(&mut bytes, &provider.host)?;
    put_all(&mut bytes, provider.fields.as_slice())?;
    bytes.extend_from_slice(b"\r\n")?;
    bytes.extend_from_slice(provider.body.as_slice())?;
    Ok(bytes)
}

// Appends the fields, each as a line with its end.
fn put_all(bytes: &mut Vec<u8>, lines: &[HeaderLine]) -> Result<(), Memory>
    ensures bytes { OnOk result
        (bytes.new.items ≡ bytes.old.items ++ flat_map ended lines.now) }
    ensures lines { OnOk result (IsTrue (list_all is_line lines.now)) }
{
    for line in lines {
        put(bytes, line)?;
    }
    Ok(())
}

// Appends a line, with its end.
fn put(bytes: &mut Vec<u8>, line: &HeaderLine) -> Result<(), Memory>
    ensures bytes { OnOk result (bytes.new.items ≡ bytes.old.items ++ ended line.now) }
    ensures line { IsTrue (is_line line.now) }
{
    let line = line.as_bytes();
    bytes.extend_from_slice(line)?;
    bytes.extend_from_slice(b"\r\n")?;
    Ok(())
}
