//! What a book has noted of its tables since it last wrote them.
ghost use Rattle.std.specs.Prelude.{◌≡◌, ◌⊎◌, Some, IfSome};
ghost use Rattle.canary_tables.specs.Notes.{no_notes, mark_at};

use canary_base::names::Name;

/// How far a service's measurements were read: so many of them have a place up to this one.
#[derive(Clone, Copy)]
pub(crate) struct Mark {
    pub service: Name,
    pub index: u64,
    pub place: i64,
}

/// All that is noted. It holds of the tables as they are: reads leave these as they were, and what
/// writes them has to drop it.
#[derive(Clone, Copy)]
pub(crate) struct Notes {
    pub mark: Option<Mark>,
}

impl Notes {
    /// None.
    pub fn none() -> Notes
        ensures { result ≡ no_notes }
    {
        Notes { mark: None }
    }

    /// The place up to which just so many of the service's measurements stand, if it is noted.
    pub fn place(&self, service: &Name, index: u64) -> Option<i64>
        ensures { IfSome result
            (λ place. self.now.mark ≡ Some (mark_at service.now index place)) }
    {
        let mark = self.mark?;
        if mark.service == *service && mark.index == index {
            Some(mark.place)
        } else {
            None
        }
    }

    /// These, with a later mark in place of the one that was noted, if there is a later one.
    pub fn with_mark(self, later: Option<Mark>) -> Notes
        ensures { (result ≡ self) ⊎ (result.mark ≡ later) }
    {
        match later {
            Some(mark) => Notes { mark: Some(mark) },
            None => self,
        }
    }
}
