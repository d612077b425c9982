//! Laws over the definitions alone.
ghost use Rattle.canary_canonical.specs.Laws.{ReadsBack, OneText};

/// A command's canonical text is read as the command, if each part of the command keeps its
/// limits, as in each command of a program.
pub fn reads_back()
    ensures { ReadsBack }
{}

/// Two such commands have one canonical text exactly if they are equal.
pub fn one_text()
    ensures { OneText }
{}
