//! Laws over all journals.
ghost use Rattle.canary_client_journal.specs.Laws.{Grows, KeysStandOnce};

/// The lines of a journal, with one line more whose entry may stand next, are the journal with that
/// entry; and in the journal of any lines a key stands for one wish at most.
pub fn journals()
    ensures grows { Grows }
    ensures keys { KeysStandOnce }
{}
