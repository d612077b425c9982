//! Laws over the definitions alone.
ghost use Rattle.canary_plan.specs.Commands.{SameWhereEqual};
ghost use Rattle.canary_plan.specs.Conditions.{ReadsWhatIsSpelled};
ghost use Rattle.canary_plan.specs.Lines.{WordsReadBack};

/// The condition that is computed of a text is the one that it spells.
pub fn conditions()
    ensures { ReadsWhatIsSpelled }
{}

/// Two commands are the same exactly if they are equal.
pub fn same_commands()
    ensures { SameWhereEqual }
{}

/// The words of a line of a history stand for one event at most.
pub fn one_event()
    ensures { WordsReadBack }
{}
