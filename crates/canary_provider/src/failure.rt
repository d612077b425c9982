//! Why a reply has no measurement, in words.
ghost use Rattle.std.specs.Prelude.{◌≡◌, false, IfOk, OnOk};
ghost use Rattle.canary_provider.specs.Answers.{is_memory};
ghost use Rattle.canary_provider.specs.Texts.{IsShown};

use arrayvec::ArrayString;
use canary_base::error::Memory;
use canary_base::lists::Text;
use canary_condition::outcome::{FailureText, MAX_FAILURE_BYTES};
use canary_shown::laws;
use canary_shown::text::{TextKind, shown};
use itoa::Buffer;
use std::alloc::{AllocError, AllocFailed, Global};
use std::str;

/// Why a reply has no measurement.
#[derive(Clone, Copy)]
pub(crate) enum ReplyFault<'a> {
    /// An allocation was refused.
    Memory,
    /// What it has in place of one.
    Has(&'static str),
    /// The same, with a text of the reply.
    Text(&'static str, &'a str),
}

// The most bytes of a failure's text.
const MOST: usize = MAX_FAILURE_BYTES;

impl From<Memory> for ReplyFault<'_> {
    ghost use Rattle.canary_provider.specs.declared.failure.ReplyFault.TheVariants.{Memory as refused};
    ghost use Rattle.std.specs.Prelude.{◌≡◌};

    ghost from_gives = { λ _ fault. fault ≡ refused };

    // A refused allocation is `ReplyFault::Memory`.
    fn from(_: Memory) -> Self {
        ReplyFault::Memory
    }
}

impl From<AllocError> for ReplyFault<'_> {
    ghost use Rattle.canary_provider.specs.declared.failure.ReplyFault.TheVariants.{Memory as refused};
    ghost use Rattle.std.specs.Prelude.{◌≡◌};

    ghost from_gives = { λ _ fault. fault ≡ refused };

    // The same, as calls of the standard library report it.
    fn from(_: AllocError) -> Self {
        ReplyFault::Memory
    }
}

impl<T: Drop> From<AllocFailed<T>> for ReplyFault<'_> {
    ghost use Rattle.canary_provider.specs.declared.failure.ReplyFault.TheVariants.{Memory as refused};
    ghost use Rattle.std.specs.Prelude.{◌≡◌};

    ghost from_gives = { λ _ fault. fault ≡ refused };

    // The same, as calls report it that return the value for which there was no room.
    fn from(_: AllocFailed<T>) -> Self {
        ReplyFault::Memory
    }
}

/// The text of a fault, with how the body begins; or `Memory`.
pub(crate) fn text_of(
    alloc: Global,
    fault: ReplyFault<'_>,
    body: &[u8],
) -> Result<FailureText, Memory>
    ensures shown { IfOk result (λ text. IsShown text) }
    ensures fault { OnOk result (is_memory fault.entry ≡ false) }
{
    match fault {
        ReplyFault::Memory => Err(Memory),
        ReplyFault::Has(what) => told(alloc, what, front_of(body)),
        ReplyFault::Text(what, text) => told(alloc, what, text),
    }
}

/// The text of a reply with that status, which has no measurement: of which kind that is, and how
/// it goes on; or `Memory`.
pub(crate) fn status_text(
    alloc: Global,
    status: u16,
    kind: &str,
    text: &str,
) -> Result<FailureText, Memory>
    ensures { IfOk result (λ text. IsShown text) }
{
    let mut words = ArrayString::new();
    let mut buffer = Buffer::new();
    put(alloc, &mut words, "HTTP ")?;
    put(alloc, &mut words, buffer.format(status))?;
    put(alloc, &mut words, ", ")?;
    put(alloc, &mut words, kind)?;
    put(alloc, &mut words, ": ")?;
    put(alloc, &mut words, text)?;
    finished(alloc, &words)
}

/// How a body begins, as far as that is text.
pub(crate) fn front_of(body: &[u8]) -> &str {
    let front = &body[..body.len().min(MOST)];
    match str::from_utf8(front) {
        Ok(text) => text,
        Err(fault) => text_at(front, fault.valid_up_to()),
    }
}

// The bytes before `end` as text; up to there they are valid UTF-8.
fn text_at(front: &[u8], end: usize) -> &str {
    let text = front.get(..end).unwrap_or(&[]);
    str::from_utf8(text).unwrap_or("")
}

// What it is, and how it goes on, as a terminal shows both. What has no room in 200 bytes is left
// out.
fn told(alloc: Global, what: &str, text: &str) -> Result<FailureText, Memory>
    ensures { IfOk result (λ text. IsShown text) }
{
    let mut words = ArrayString::new();
    put(alloc, &mut words, what)?;
    put(alloc, &mut words, ": ")?;
    put(alloc, &mut words, text)?;
    finished(alloc, &words)
}

// The text of a failure, of these words, which are never empty.
fn finished(alloc: Global, words: &ArrayString<MOST>) -> Result<FailureText, Memory>
    requires { IsShown words.now.bytes }
    ensures { IfOk result (λ text. IsShown text) }
{
    let text = Text::of(String::from_str(alloc, words.as_str())?);
    match FailureText::of(text) {
        Some(text) => Ok(text),
        // each fault has a text
        None => Err(Memory),
    }
}

// Appends a text, as far as there is room.
fn put(alloc: Global, words: &mut ArrayString<MOST>, part: &str) -> Result<(), Memory>
    requires { IsShown words.old.bytes }
    ensures { OnOk result (IsShown words.new.bytes) }
{
    for character in part.chars() {
        if !put_one(alloc, words, character)? {
            return Ok(());
        }
    }
    Ok(())
}

// Appends a character, if there is room.
fn put_one(alloc: Global, words: &mut ArrayString<MOST>, character: char) -> Result<bool, Memory>
    requires { IsShown words.old.bytes }
    ensures { OnOk result (IsShown words.new.bytes) }
{
    let mut one = String::new(alloc);
    one.push(character)?;
    let one = shown_one(alloc, one.as_str())?;
    Ok(put_shown(words, one.as_str()))
}

// Appends a text, if there is room for it. Whether there was.
fn put_shown(words: &mut ArrayString<MOST>, text: &str) -> bool
    requires before { IsShown words.old.bytes }
    requires text { IsShown text.now }
    ensures { IsShown words.new.bytes }
{
    if text.len() > words.remaining_capacity() {
        return false;
    }
    words.push_str(text);
    true
}

// A text as a terminal shows it.
fn shown_one(alloc: Global, text: &str) -> Result<Text, Memory>
    ensures { IfOk result (λ shown. IsShown shown) }
{
    laws::showing();
    Ok(Text::of(shown(alloc, text, TextKind::Json)?))
}
