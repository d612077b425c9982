//! Laws over the definitions alone.
ghost use Rattle.canary_once.specs.Laws.{NewAreOfTheMachine, EachOnce, OneRequest, RunsOn};
ghost use Rattle.canary_once.specs.Laws.{NoneIsAhead, ConflictsChangeNothing};
ghost use Rattle.canary_once.specs.Laws.{RefusalsLeaveTheDesk, StaysSettled};
ghost use Rattle.canary_once.specs.Laws.{RequestsAreAnswered, QueriesAreAnswered};
ghost use Rattle.canary_once.specs.Laws.{QueriesChangeNothing, StaysSound, SettlementsKeep};
ghost use Rattle.canary_once.specs.Contents.{no_contents, KeepsSettled};
ghost use Rattle.canary_once.specs.Sound.{AreContents, AreSoundContents};
ghost use Rattle.canary_once.specs.BookCalls.{AreSure};

use crate::book::Book;
use crate::memory::MemoryBook;
use canary_release::laws;

/// The new requests of a list of events are answered by one run of the small machine over the
/// settled requests alone, and each number of a caller is settled once, in order.
pub fn settled_requests()
    ensures machine { NewAreOfTheMachine }
    ensures once { EachOnce }
{}

/// What one request comes to: a new one is settled, a repeat gets the reply of its receipt, and one
/// ahead is refused; neither of these changes anything.
pub fn one_request()
    ensures { OneRequest }
{}

/// A list of events runs on where another stopped: it does not matter how events are cut into
/// runs.
pub fn running_on()
    ensures { RunsOn }
{}

/// A caller with 1,000,000,000 settled requests has no number ahead: each number that a request
/// can have is a repeat.
pub fn last_number()
    ensures { NoneIsAhead }
{}

/// A conflict leaves the contents as they were, and a refusal leaves the desk as it was.
pub fn refusals()
    ensures conflicts { ConflictsChangeNothing }
    ensures refused { RefusalsLeaveTheDesk }
{
    laws::refusals();
}

/// A receipt is of a command that was accepted or refused, and of no conflict: so it is when
/// nothing is settled, and so it stays. A request is answered by such a reply, or by a conflict; a
/// query by what it asks for, or by saying that it is not there.
pub fn statuses()
    ensures none { KeepsSettled no_contents }
    ensures kept { StaysSettled }
    ensures requests { RequestsAreAnswered }
    ensures queries { QueriesAreAnswered }
{
    laws::refusals();
}

/// A query changes nothing.
pub fn queries()
    ensures { QueriesChangeNothing }
{}

/// Empty contents are sound, as what holds of all contents holds of them; and a desk in order stays
/// in order, and sound contents stay sound: each verdict is that of its run's recorded
/// measurements.
pub fn soundness()
    ensures lawful { AreContents no_contents }
    ensures none { AreSoundContents no_contents }
    ensures kept { StaysSound }
{
    laws::in_order();
    laws::sound();
}

/// A settled request keeps what holds of all contents, and each receipt that is there; and sound
/// contents stay sound.
pub fn settlements()
    ensures { SettlementsKeep }
{
    laws::in_order();
    laws::sound();
    laws::refusals();
}

/// The store of a book in memory is honest, and memory alone, and the book is sure, however it came
/// about.
pub fn memory_books()
    ensures { AreSure ⟦<MemoryBook as Book>⟧.state }
{}
