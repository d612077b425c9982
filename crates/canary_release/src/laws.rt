//! Laws over the definitions alone.
ghost use Rattle.canary_release.specs.Laws.{WatchesAlike, RefusalsLeaveTheDesk, LooksOnlyAt};
ghost use Rattle.canary_release.specs.Laws.{AreIndependent, TicksOnlyPassTime};
ghost use Rattle.canary_release.specs.Rules.Passing.{PassesAsComputed, PassesInSteps};
ghost use Rattle.canary_release.specs.Stored.{KeepsWhatIsSeen};
ghost use Rattle.canary_release.specs.Desks.{no_desk};
ghost use Rattle.canary_release.specs.Order.{AreInOrder, StayInOrder};
ghost use Rattle.canary_release.specs.PartsLaws.{PassingKeepsParts, ActingKeepsParts};
ghost use Rattle.canary_release.specs.PartsLaws.{NewPartsAreUnbroken};
ghost use Rattle.canary_release.specs.Sound.{AreSound, StaySound};
ghost use Rattle.canary_release.specs.Effects.{CommandsChange, TimeMeasuresNothing};

use canary_metric::laws;

/// What is tracked of a service's runs after all that happened is the same from the whole lists of
/// what is past as from the tallies that are kept.
pub fn watching()
    ensures { WatchesAlike }
{
    laws::one_more();
}

/// The service that a change brings is what is kept of that service afterwards, tallies and all.
pub fn changes()
    ensures { KeepsWhatIsSeen }
{}

/// A service passes as it is computed: there is a longest chain of moves, the computed end is its
/// end, and it has no other.
pub fn passing()
    ensures { PassesAsComputed }
{}

/// A command is accepted or refused, and one that is refused leaves the desk as it was.
pub fn refusals()
    ensures { RefusalsLeaveTheDesk }
{}

/// Time in two steps is time in one: a service that passes to a moment and then to a later one ends
/// as one that passes to the later, and the same happened on the way.
pub fn time()
    ensures { PassesInSteps }
{}

/// A decision looks only at the templates that its command looks up: by templates that agree on
/// these names, a command does and answers the same.
pub fn templates_looked_up()
    ensures { LooksOnlyAt }
{}

/// A service depends on the templates and on the commands that name it alone: two desks that agree
/// on the templates and on the service, and two lists of commands of which the same, in the same
/// order and at the same moments, are Templates or name the service, lead to the same service, with
/// its runs, measurements and history, and to the same replies to the commands that name it.
pub fn independence()
    ensures { AreIndependent }
{}

/// A Tick only passes time: if no later command on the service has an earlier moment, a Tick put
/// into a list of commands, or left out, changes no reply but its own, no template and no other
/// service; and the service, passed to any moment from the Tick's on, is the same.
pub fn ticks()
    ensures { TicksOnlyPassTime }
{}

/// The machine keeps parts accepted: as time passes, after a command that is accepted, and of a new
/// service.
pub fn parts()
    ensures passing { PassingKeepsParts }
    ensures acting { ActingKeepsParts }
    ensures adding { NewPartsAreUnbroken }
{}

/// An empty desk is in order, and the machine keeps a desk in order.
pub fn in_order()
    ensures empty { AreInOrder no_desk }
    ensures keeping { StayInOrder }
{
    watching();
    parts();
}

/// An empty desk is sound, and the machine keeps a desk in order sound: each verdict is that of its
/// run's recorded measurements, each judged by its metric's conditions; and a run is closed exactly
/// if its verdict is not Running.
pub fn sound()
    ensures empty { AreSound no_desk }
    ensures keeping { StaySound }
{
    watching();
    parts();
}

/// What a command changes of a desk in order shows all that a store writes: a template has the name
/// that the command has, and is the next revision of that name; a service has that name and the
/// strategy that it had; a Start and a Retry bind it to the newest revisions, a new service is
/// bound to none, and no other command binds one; a run that is opened has the next number, and is
/// of an analysis of the strategy, bound to revisions that there are; a measurement is of an open
/// run, the next of its metric, and judged by the metric's conditions; and a run that is closed is
/// open, has its verdict, and comes with its last tallies.
pub fn effects()
    ensures { CommandsChange }
{
    watching();
    parts();
}

/// As time passes, no measurement is recorded: of the effects that bring a service to a moment,
/// none is a measurement.
pub fn quiet()
    ensures { TimeMeasuresNothing }
{}
