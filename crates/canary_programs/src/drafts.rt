//! Files that have their name once they are whole.
use crate::fault::Fault;
use canary_backup::draft::Draft;

/// Gives a draft its name if it was written whole, and else removes it. If it cannot have its name,
/// it is removed, too.
pub fn end_draft(rt: &HostRuntime, draft: &Draft, written: Result<(), Fault>) -> Result<(), Fault> {
    let named = written.and_then(|()| Ok(draft.name(rt)?));
    if named.is_err() {
        draft.remove(rt);
    }
    named
}
