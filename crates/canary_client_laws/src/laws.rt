//! Laws over all senders.
ghost use Rattle.canary_once.specs.Contents.{no_contents};
ghost use Rattle.canary_client_laws.specs.Delivery.{Delivers, AsksNoOther};
ghost use Rattle.canary_client_laws.specs.Journaling.{Begins, Asks, AsksInstead, Hears};
ghost use Rattle.canary_client_laws.specs.Senders.{NobodyHasSettled, SettleFirstParts};
ghost use Rattle.canary_client_laws.specs.Senders.{NoneIsReused, LastSettlesAll, OrderDoesNotMatter};
ghost use Rattle.canary_client_laws.specs.Settling.{Sends, Settles};
ghost use Rattle.canary_client_laws.specs.Understood.{RefusalsSettle, TemplatesSettle};
ghost use Rattle.canary_client_laws.specs.Understood.{ServicesSettle, ReportsSettle};
ghost use Rattle.canary_client_laws.specs.Understood.{ReusedIsReused, AheadIsAhead};

use canary_once::laws;
use canary_plan::laws as plans;
use canary_release::laws as releases;

/// Whatever copies come, with gaps and in any order, of the requests that callers draw from their
/// scripts: what is settled is a prefix of each script, interleaved; over contents that keep no
/// receipt of a conflict no reply says that a number was reused; and a script whose last request is
/// answered as settled is settled whole. A script goes on from what its caller has settled, which
/// over empty contents is nothing.
pub fn senders()
    ensures none { NobodyHasSettled no_contents }
    ensures first_parts { SettleFirstParts }
    ensures not_reused { NoneIsReused }
    ensures last { LastSettlesAll }
{
    plans::same_commands();
    releases::refusals();
    laws::statuses();
}

/// The order of arrival does not matter between scripts that name no service in common and have no
/// Template: if all requests come at one moment and every script is settled whole, the contents are
/// the same, receipts and services and all, in whatever order and with whatever copies the requests
/// came.
pub fn arrivals()
    ensures { OrderDoesNotMatter }
{
    releases::independence();
}

/// A caller with a journal: it writes each command there, under its next number, before it sends
/// it, and goes on to the next number once it heard that this one is settled. The network may lose,
/// repeat and delay whatever goes over it, others may ask what they like, and either end may crash
/// at any moment. The desk then settles at most one command under each of the caller's numbers, in
/// order, and one that the caller asked under it: just these act. What the caller heard is what the
/// desk keeps, and if nothing is pending, all that it asked is settled, and it heard each reply.
pub fn delivery()
    ensures delivers { Delivers }
    ensures no_other { AsksNoOther }
{
    plans::same_commands();
    laws::running_on();
}

/// A journal of canary_client_journal is that of such a caller: each entry that may stand next in
/// it is the step of the same name, under the caller's next number, if the desk reads the body as
/// the step's command, and if a reply is the desk's answer to a body that was asked under the
/// number.
pub fn journals()
    ensures begins { Begins }
    ensures asks { Asks }
    ensures instead { AsksInstead }
    ensures hears { Hears }
{}

/// What canary_client_journal does with such a journal are steps of its caller: a message that is
/// asked for is one of the commands that are pending, under the caller's next number; and a reply
/// that settles is heard, if it is the desk's answer to that message.
pub fn sending()
    ensures sends { Sends }
    ensures settles { Settles }
{}

/// What a desk replies is understood by canary_client_journal: each text that a reply to a request
/// has means what the desk answered, so none is foreign. A refusal, and a text that shows a
/// template, a service or a report, settles its number, if the service has a name and the numbers
/// fit 64 bits; `reused` is that, and `ahead` has its next number.
pub fn understood()
    ensures refused { RefusalsSettle }
    ensures template { TemplatesSettle }
    ensures service { ServicesSettle }
    ensures report { ReportsSettle }
    ensures reused { ReusedIsReused }
    ensures ahead { AheadIsAhead }
{}
