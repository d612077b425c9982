//! What a page has beside it: the services of a desk as values in JSON (RFC 8259).

pub mod record;
pub(crate) mod record_pages;
pub(crate) mod record_run;
pub mod services;
pub(crate) mod sheet;
