//! What callers may rest on, as functions that do nothing.
ghost use Rattle.canary_shown.specs.Showing.{NoneIsAMark, PlainIsItself};

/// No character of a shown text is a mark, whatever the text is, and a text without marks is shown
/// as itself.
pub fn showing()
    ensures no_mark { NoneIsAMark }
    ensures itself { PlainIsItself }
{}
