//! The journal of a file.
ghost use Rattle.canary_canonical.specs.Reads.{IsRead};
ghost use Rattle.canary_client_journal.specs.Lines.{entry_in};
ghost use Rattle.canary_client_journal.specs.Readings.{with_line, goes_on, begun_by};
ghost use Rattle.canary_client_journal.specs.Readings.{journal_of, journal_in};
ghost use Rattle.std.specs.Prelude.{◌≡◌, option_and_then};

use crate::entry::JournalEntry;
use crate::journal::Journal;
use crate::lines;
use canary_base::lists::Text;
use canary_canonical::form::FormFault;
use canary_client_records::texts;
use std::alloc::Global;

/// The journal that these bytes of a file are.
///
/// # Errors
/// `Unreadable` if the file has no text or is cut short, has a line that is no entry, or one that
/// may not stand there; `Memory`.
pub fn journal_in(alloc: Global, bytes: &[u8]) -> Result<Journal, FormFault>
    ensures { IsRead (journal_in bytes.now) result }
{
    match texts::texts_of(alloc, bytes)? {
        Some(found) => journal_of(alloc, found.texts.as_slice()),
        None => Err(FormFault::Unreadable),
    }
}

/// The journal of these lines.
///
/// # Errors
/// `Unreadable` if the first one does not begin a journal, or another one may not stand there;
/// `Memory`.
pub fn journal_of(alloc: Global, texts: &[Text]) -> Result<Journal, FormFault>
    ensures { IsRead (journal_of texts.now) result }
{
    match texts {
        [] => Err(FormFault::Unreadable),
        [first, rest @ ..] => {
            let journal = begun(alloc, first.as_str())?;
            go_on(alloc, journal, rest)
        }
    }
}

// The journal that the first line begins; `Unreadable` if it begins none.
fn begun(alloc: Global, text: &str) -> Result<Journal, FormFault>
    ensures { IsRead (option_and_then begun_by (entry_in text.now)) result }
{
    let entry = lines::entry_in(alloc, text)?;
    begun_by(alloc, &entry).ok_or(FormFault::Unreadable)
}

// The journal that an entry begins; none if it is no `Begun`, or its count is too great.
fn begun_by(alloc: Global, entry: &JournalEntry) -> Option<Journal>
    ensures { result ≡ begun_by entry.now }
{
    match entry {
        JournalEntry::Begun { caller, settled } => Journal::begun(alloc, *caller, *settled),
        _ => None,
    }
}

// The journal with these lines more.
fn go_on(alloc: Global, before: Journal, texts: &[Text]) -> Result<Journal, FormFault>
    ensures { IsRead (goes_on before texts.now) result }
{
    let mut journal = before;
    for text in texts {
        journal = with_line(alloc, journal, text.as_str())?;
    }
    Ok(journal)
}

// The journal with this line more; `Unreadable` if it is no entry, or may not come next.
fn with_line(alloc: Global, before: Journal, text: &str) -> Result<Journal, FormFault>
    ensures { IsRead (with_line before text.now) result }
{
    let mut journal = before;
    let entry = lines::entry_in(alloc, text)?;
    if journal.refusal(&entry).is_some() {
        return Err(FormFault::Unreadable);
    }
    journal.take(entry)?;
    Ok(journal)
}
