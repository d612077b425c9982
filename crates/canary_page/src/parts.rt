//! The parts of a page that show a service.

pub(crate) mod attempts;
pub(crate) mod card;
pub(crate) mod ended;
pub(crate) mod history;
pub(crate) mod run;
pub(crate) mod table;
pub(crate) mod track;
pub(crate) mod waits;
