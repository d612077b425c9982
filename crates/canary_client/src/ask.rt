//! `do`: a command, once.
ghost use Rattle.std.specs.Prelude.{◌≡◌, ◌⊎◌, ◌++◌, ◌∷◌, [], List, ℕ, Some, None, false};
ghost use Rattle.std.specs.Prelude.{IfOk, OnOk, IsTrue, Option, length, slice_get};
ghost use Rattle.std.specs.Io.KnownBytes.{Appends};
ghost use Rattle.canary_client_journal.specs.declared.entry.Asked.{Asked};
ghost use Rattle.canary_client_journal.specs.declared.entry.SettledNumber.{SettledNumber};
ghost use Rattle.canary_client_journal.specs.Journals.{JournalValue};
ghost use Rattle.canary_shown.specs.Showing.{shown};
ghost use Rattle.canary_shown.specs.declared.text.TextKind.TheVariants.{Json};
ghost use Rattle.canary_client_journal.specs.Keeping.{IsKept};
ghost use Rattle.canary_client_journal.specs.Networks.{GoesOn};
ghost use Rattle.canary_client_journal.specs.Sending.{IsAskedBy};
ghost use Rattle.canary_client.specs.declared.ask.SettledAt.{SettledAt};
ghost use Rattle.canary_client.specs.Asking.{acted, by_reply, outcome_by};
ghost use Rattle.canary_client.specs.Beginning.{IsSettledSo};
ghost use Rattle.canary_client.specs.Promises.{IsFor, IsSettledAt, reply_line};
ghost use Rattle.canary_client.specs.Promises.{IsQuery, IsWishFor, IsSentAnew, IsSentFor};

use crate::each::{NamedCommand, commands_of};
use crate::endpoint::{DeskEndpoint, caller_of, endpoint_of, journal_of};
use crate::journals::{asked, asked_instead, device_at, journal_on, settled};
use crate::outcome::{ClientExit, Stop, say, say_of, show};
use crate::plain::{json_of, line_of};
use crate::report::{NewMeasurement, next_ordinal, report_body};
use crate::tcp::Tcp;
use crate::wish::{Asking, has_intent, read_asking};
use canary_base::lists::Text;
use canary_base::moments::Moment;
use canary_base::names::Name;
use canary_cli_words::words::Call;
use canary_client_journal::entry::{SettledNumber, SettledReply, Wish, WishPlace};
use canary_client_journal::journal::Journal;
use canary_client_journal::kept::KeptJournal;
use canary_client_journal::network::Network;
use canary_client_records::device::Device;
use canary_client_records::file::FileDevice;
use std::alloc::Global;
use std::io::Write;
use std::time::SystemTime;

// What is said of an earlier command that is pending.
const BEHIND: &str = "an earlier command is not answered yet, and goes first";

// What is said of a command that took another one's place, or whose place another one took.
const TOO_LATE: &str =
    "too late: the earlier command was settled, with this reply; this one did nothing";

const REPLACED: &str =
    "another command took its place, and was settled with this reply; this one did nothing";

/// Asks a command of a desk, once, and shows its reply on `output`: the body, or on a terminal a
/// plain line. If it did not come to that, a sentence on `errors` says why.
pub fn ask<W: Write, F: Write>(
    rt: &HostRuntime,
    call: Call,
    output: &mut W,
    errors: &mut F,
    is_terminal: bool,
) -> ClientExit {
    let journal = journal_of(rt, &call.journal).ok();
    match try_ask(rt, &call, output, errors, is_terminal) {
        Ok(outcome) => outcome,
        Err(stop) => tell_of(rt.alloc(), stop, &journal, errors),
    }
}

// Says why a call stopped, with the name of the journal if that is why.
fn tell_of<F: Write>(
    alloc: Global,
    stop: Stop,
    journal: &Option<Text>,
    errors: &mut F,
) -> ClientExit {
    match journal {
        Some(path) if stop.is_of_journal() => {
            say_of(alloc, errors, stop.sentence(), path.as_str())
        },
        _ => say(errors, stop.sentence()),
    }
    stop.outcome()
}

// Checks the words, and asks their command, or each one that manifests of Argo become.
fn try_ask<W: Write, F: Write>(
    rt: &HostRuntime,
    call: &Call,
    output: &mut W,
    errors: &mut F,
    is_terminal: bool,
) -> Result<ClientExit, Stop> {
    check_key(call)?;
    let place = endpoint_of(rt, &call.desk)?;
    let caller = caller_of(rt, &call.caller)?;
    if call.is_argo {
        return ask_each(rt, call, &place, caller, output, errors, is_terminal);
    }
    ask_plain(rt, call, &place, caller, output, errors, is_terminal)
}

// Checks the key of a call, if it has one: a command that takes another one's place has none, and
// an empty one is that of a variable that is not set.
fn check_key(call: &Call) -> Result<(), Stop> {
    match &call.key {
        Some(_) if call.is_instead => Err(Stop::KeyInstead),
        Some(key) if key.as_str().is_empty() => Err(Stop::KeyEmpty),
        _ => Ok(()),
    }
}

// Asks the command that the words are.
fn ask_plain<W: Write, F: Write>(
    rt: &HostRuntime,
    call: &Call,
    place: &DeskEndpoint,
    caller: Name,
    output: &mut W,
    errors: &mut F,
    is_terminal: bool,
) -> Result<ClientExit, Stop> {
    let asking = read_asking(rt, &call.command)?;
    let key = key_of(rt.alloc(), &call.key, "")?;
    ask_one(
        rt,
        call,
        place,
        caller,
        asking,
        key,
        output,
        errors,
        is_terminal,
    )
}

// Asks the commands that manifests of Argo Rollouts become, one after another, up to one that is
// not done. The key of each is that of the call, and the name of what it registers.
fn ask_each<W: Write, F: Write>(
    rt: &HostRuntime,
    call: &Call,
    place: &DeskEndpoint,
    caller: Name,
    output: &mut W,
    errors: &mut F,
    is_terminal: bool,
) -> Result<ClientExit, Stop> {
    for NamedCommand { name, asking } in commands_of(rt, &call.command, errors)? {
        let key = key_of(rt.alloc(), &call.key, name.as_str())?;
        let outcome = ask_one(
            rt,
            call,
            place,
            caller,
            asking,
            key,
            output,
            errors,
            is_terminal,
        )?;
        if outcome != ClientExit::Done {
            return Ok(outcome);
        }
    }
    Ok(ClientExit::Done)
}

// The key of what is registered under this name; that of the call, if there is no name.
fn key_of(alloc: Global, key: &Option<Text>, name: &str) -> Result<Option<Text>, Stop> {
    let Some(key) = key else {
        return Ok(None);
    };
    let mut text = String::from_str(alloc, key.as_str())?;
    if !name.is_empty() {
        text.push_str(" ")?;
        text.push_str(name)?;
    }
    Ok(Some(Text::of(text)))
}

// Asks a command in the name of the call's caller.
fn ask_one<W: Write, F: Write>(
    rt: &HostRuntime,
    call: &Call,
    place: &DeskEndpoint,
    caller: Name,
    asking: Asking,
    key: Option<Text>,
    output: &mut W,
    errors: &mut F,
    is_terminal: bool,
) -> Result<ClientExit, Stop> {
    let device = device_of(rt, &call.journal)?;
    let mut network = Tcp::new(rt, place);
    let (is_in_doubt, tries) = (device.is_in_doubt(), place.tries);
    let mut kept = journal_on(rt.alloc(), &mut network, device, is_in_doubt, caller, tries)?;
    ask_kept(
        rt,
        &mut network,
        &mut kept,
        asking,
        key,
        call.is_instead,
        tries,
        output,
        errors,
        is_terminal,
    )
}

// Settles what is asked, and only then shows its reply: the promise of `do`, over any network and
// any device.
fn ask_kept<N: Network, D: Device, W: Write, F: Write>(
    rt: &HostRuntime,
    network: &mut N,
    kept: &mut KeptJournal<D>,
    asking: Asking,
    key: Option<Text>,
    is_instead: bool,
    tries: u32,
    output: &mut W,
    errors: &mut F,
    is_terminal: bool,
) -> Result<ClientExit, Stop>
    requires { IsKept D.seen D.may_leave kept.old }
    ensures kept { OnOk result (IsKept D.seen D.may_leave kept.new) }
    ensures first { (output.new ≡ output.old) ⊎ (IsKept D.seen D.may_leave kept.new
        × ((at : SettledAt) × IsSettledAt (N.was_told network.new) asking key
        kept.old.journal kept.new.journal at)) }
    ensures shows { IfOk result (λ outcome. (at : SettledAt)
        × (settled : IsSettledAt (N.was_told network.new) asking key
        kept.old.journal kept.new.journal at)
        × (outcome ≡ outcome_by at.is_wish settled.kept)
        × (is_terminal ≡ false → Appends (W.contents output.old) (W.contents output.new)
        (reply_line settled.kept))) }
    ensures sends { GoesOn N.was_sent N.was_told N.was_unanswered network.old network.new
        (IsSentFor (N.was_told network.new) asking key kept.old.journal) }
{
    let settled = settle_asked(rt, network, kept, asking, key, is_instead, tries, errors)?;
    show_settled(rt.alloc(), kept, settled, output, errors, is_terminal)
}

// The journal's file, open and locked, with its name on the disk.
fn device_of(rt: &HostRuntime, journal: &Option<Text>) -> Result<FileDevice, Stop> {
    let path = journal_of(rt, journal)?;
    device_at(rt, path.as_str())
}

// Where what was asked stands in a journal once it is settled: at which place, and whether it is
// the wish there, or what took its place.
#[derive(Clone, Copy, Debug, PartialEq, Eq)]
struct SettledAt {
    place: usize,
    is_wish: bool,
}

// Settles what is asked. What is pending is settled before anything else.
fn settle_asked<N: Network, D: Device, F: Write>(
    rt: &HostRuntime,
    network: &mut N,
    kept: &mut KeptJournal<D>,
    asking: Asking,
    key: Option<Text>,
    is_instead: bool,
    tries: u32,
    errors: &mut F,
) -> Result<SettledAt, Stop>
    requires { IsKept D.seen D.may_leave kept.old }
    ensures kept { OnOk result (IsKept D.seen D.may_leave kept.new) }
    ensures settled { IfOk result (IsSettledAt (N.was_told network.new) asking key
        kept.old.journal kept.new.journal) }
    ensures sends { GoesOn N.was_sent N.was_told N.was_unanswered network.old network.new
        (IsSentFor (N.was_told network.new) asking key kept.old.journal) }
{
    if key.is_none() && is_asked_instead(rt.alloc(), &kept.journal, &asking)? {
        return resumed(rt.alloc(), network, kept, false, tries);
    }
    match kept.journal.place_of(asking.intent(), &key) {
        WishPlace::Settled(place) => Ok(SettledAt {
            place,
            is_wish: true,
        }),
        WishPlace::Pending => resumed(rt.alloc(), network, kept, true, tries),
        WishPlace::KeyUsed => Err(Stop::KeyUsed),
        WishPlace::New => ask_anew(rt, network, kept, asking, key, tries),
        WishPlace::Behind if is_instead => instead(rt.alloc(), network, kept, asking, tries),
        WishPlace::Behind => {
            say(errors, BEHIND);
            ask_next(rt, network, kept, asking, key, tries)
        }
    }
}

// Whether a command that means the same was asked already in the place of the wish that is pending.
fn is_asked_instead(alloc: Global, journal: &Journal, asking: &Asking) -> Result<bool, Stop>
    ensures { IfOk result (λ is. IsTrue is → (a : Asked) × (journal.now.pending ≡ Some a)
        × IsFor asking.now None false a) }
{
    match (journal.pending(), asking) {
        (Some(asked), Asking::Command { intent, body }) => match &asked.instead {
            Some(instead) if instead.as_str() == body.as_str() => Ok(true),
            Some(instead) => has_intent(alloc, instead.as_str(), intent.as_str()),
            None => Ok(false),
        },
        _ => Ok(false),
    }
}

// Settles what is pending, which is what is asked.
fn resumed<N: Network, D: Device>(
    alloc: Global,
    network: &mut N,
    kept: &mut KeptJournal<D>,
    is_wish: bool,
    tries: u32,
) -> Result<SettledAt, Stop>
    requires { IsKept D.seen D.may_leave kept.old }
    ensures kept { OnOk result (IsKept D.seen D.may_leave kept.new) }
    ensures settled { IfOk result (λ at.
        (at ≡ record { place = length kept.old.journal.kept; is_wish = is_wish })
        × IsSettledSo (N.was_told network.new) kept.old.journal kept.new.journal) }
    ensures sends { GoesOn N.was_sent N.was_told N.was_unanswered network.old network.new
        (IsAskedBy (N.was_told network.new) kept.old.journal) }
{
    let place = kept.journal.kept().len();
    settled(alloc, network, kept, tries)?;
    Ok(SettledAt { place, is_wish })
}

// Settles what is pending, and then asks what is new.
fn ask_next<N: Network, D: Device>(
    rt: &HostRuntime,
    network: &mut N,
    kept: &mut KeptJournal<D>,
    asking: Asking,
    key: Option<Text>,
    tries: u32,
) -> Result<SettledAt, Stop>
    requires { IsKept D.seen D.may_leave kept.old }
    ensures kept { OnOk result (IsKept D.seen D.may_leave kept.new) }
    ensures settled { IfOk result (IsSettledAt (N.was_told network.new) asking key
        kept.old.journal kept.new.journal) }
    ensures sends { GoesOn N.was_sent N.was_told N.was_unanswered network.old network.new
        (IsSentFor (N.was_told network.new) asking key kept.old.journal) }
{
    settled(rt.alloc(), network, kept, tries)?;
    ask_anew(rt, network, kept, asking, key, tries)
}

// Asks what is new, while nothing is pending.
fn ask_anew<N: Network, D: Device>(
    rt: &HostRuntime,
    network: &mut N,
    kept: &mut KeptJournal<D>,
    asking: Asking,
    key: Option<Text>,
    tries: u32,
) -> Result<SettledAt, Stop>
    requires { IsKept D.seen D.may_leave kept.old }
    ensures kept { OnOk result (IsKept D.seen D.may_leave kept.new) }
    ensures settled { (before : JournalValue) → IfOk result
        (IsSettledAt (N.was_told network.new) asking key before kept.new.journal) }
    ensures sends { GoesOn N.was_sent N.was_told N.was_unanswered network.old network.new
        (IsSentAnew (N.was_told network.new) asking key kept.old.journal) }
{
    let place = kept.journal.kept().len();
    let wish = wish_of(rt, network, asking, key, tries)?;
    asked(rt.alloc(), network, kept, wish, tries)?;
    Ok(SettledAt {
        place,
        is_wish: true,
    })
}

// The wish of what is asked: the ordinal of a report is asked for, and its moment is now.
fn wish_of<N: Network>(
    rt: &HostRuntime,
    network: &mut N,
    asking: Asking,
    key: Option<Text>,
    tries: u32,
) -> Result<Wish, Stop>
    ensures wish { IfOk result (IsWishFor asking key) }
    ensures sends { GoesOn N.was_sent N.was_told N.was_unanswered network.old network.new IsQuery }
{
    match asking {
        Asking::Command { intent, body } => Ok(Wish { intent, key, body }),
        Asking::Report { intent, measured } => {
            let body = report_now(rt, network, &measured, tries)?;
            Ok(Wish { intent, key, body })
        }
    }
}

// The body of a report of what was measured now.
fn report_now<N: Network>(
    rt: &HostRuntime,
    network: &mut N,
    measured: &NewMeasurement,
    tries: u32,
) -> Result<Text, Stop>
    ensures { GoesOn N.was_sent N.was_told N.was_unanswered network.old network.new IsQuery }
{
    let ordinal = next_ordinal(rt.alloc(), network, measured, tries)?;
    Ok(report_body(rt.alloc(), measured, ordinal, now(rt)?.get())?)
}

// The moment, in seconds since 1970-01-01T00:00:00Z.
fn now(rt: &HostRuntime) -> Result<Moment, Stop> {
    let Ok(now) = SystemTime::now(rt) else {
        return Err(Stop::Clock);
    };
    match now.duration_since(SystemTime::UNIX_EPOCH) {
        Ok(passed) => Moment::new(passed.as_secs()).ok_or(Stop::LateClock),
        Err(_) => Err(Stop::Clock),
    }
}

// Asks a command in the place of the wish that is pending.
fn instead<N: Network, D: Device>(
    alloc: Global,
    network: &mut N,
    kept: &mut KeptJournal<D>,
    asking: Asking,
    tries: u32,
) -> Result<SettledAt, Stop>
    requires { IsKept D.seen D.may_leave kept.old }
    ensures kept { OnOk result (IsKept D.seen D.may_leave kept.new) }
    ensures settled { (key : Option (List ℕ)) → IfOk result
        (IsSettledAt (N.was_told network.new) asking key kept.old.journal kept.new.journal) }
    ensures sends { (key : Option (List ℕ)) → GoesOn N.was_sent N.was_told N.was_unanswered
        network.old network.new
        (IsSentFor (N.was_told network.new) asking key kept.old.journal) }
{
    let place = kept.journal.kept().len();
    let Asking::Command { body, .. } = asking else {
        return Err(Stop::ReportInstead);
    };
    asked_instead(alloc, network, kept, body, tries)?;
    Ok(SettledAt {
        place,
        is_wish: false,
    })
}

// Shows the reply at a place of the journal, and answers how the call ends by it.
fn show_settled<D: Device, W: Write, F: Write>(
    alloc: Global,
    kept: &KeptJournal<D>,
    settled: SettledAt,
    output: &mut W,
    errors: &mut F,
    is_terminal: bool,
) -> Result<ClientExit, Stop>
    ensures { (k : SettledNumber) → slice_get kept.now.journal.kept settled.place ≡ Some k
        → IfOk result (λ outcome. (outcome ≡ outcome_by settled.is_wish k)
        × (is_terminal ≡ false → Appends (W.contents output.old) (W.contents output.new)
        (reply_line k))) }
{
    let Some(kept) = kept.journal.kept().get(settled.place) else {
        return Err(Stop::Refused);
    };
    show_body(alloc, kept.reply.body.as_str(), output, is_terminal)?;
    let outcome = outcome_of(kept, settled.is_wish);
    if outcome == ClientExit::Late {
        say(errors, if settled.is_wish { REPLACED } else { TOO_LATE });
    }
    Ok(outcome)
}

// How a call ends by what settled a number: that of the wish, or that of what was asked in its
// place. Only one of the two acted.
fn outcome_of(kept: &SettledNumber, is_wish: bool) -> ClientExit
    ensures { result ≡ outcome_by is_wish kept.now }
{
    if is_wish {
        if acted(kept) {
            by_reply(&kept.reply)
        } else {
            ClientExit::Late
        }
    } else if acted(kept) {
        ClientExit::Late
    } else {
        by_reply(&kept.reply)
    }
}

// How a call ends by a reply: `Done` if its status is 200, else `Refused`.
fn by_reply(reply: &SettledReply) -> ClientExit
    ensures { result ≡ by_reply reply.now }
{
    if reply.status == 200 {
        ClientExit::Done
    } else {
        ClientExit::Refused
    }
}

// Whether the wish acted, and not what was asked in its place.
fn acted(kept: &SettledNumber) -> bool
    ensures { result ≡ acted kept.now }
{
    kept.asked.instead.is_none() || kept.reply.is_late
}

/// Shows the body of a reply: on a terminal a plain line, if there is one.
///
/// # Errors
/// `Output` if the output failed; `Memory`.
pub fn show_body<W: Write>(
    alloc: Global,
    body: &str,
    output: &mut W,
    is_terminal: bool,
) -> Result<(), Stop>
    ensures { OnOk result (is_terminal ≡ false
        → Appends (W.contents output.old) (W.contents output.new)
        (shown Json body.now ++ 10 ∷ [])) }
{
    if is_terminal {
        if let Some(line) = line_of(alloc, body)? {
            return show(output, line.as_str());
        }
    }
    show(output, json_of(alloc, body)?.as_str())
}
