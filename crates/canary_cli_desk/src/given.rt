//! What the words of a program give: the form of a status, a text, the file of a desk.
use crate::open::DeskFile;
use crate::run::Terminals;
use canary_base::lists::Text;
use canary_programs::overview::OverviewFormat;
use canary_programs::status::Drawing;

// How often a status is printed, in which form, and whether on a terminal.
pub(crate) fn drawing(
    every: Option<u64>,
    is_json: bool,
    is_prometheus: bool,
    terminals: Terminals,
) -> Drawing {
    Drawing {
        form: form_of(is_json, is_prometheus),
        every,
        is_terminal: terminals.output,
    }
}

// The form for these flags: tables if neither is set, and Prometheus if both are.
fn form_of(is_json: bool, is_prometheus: bool) -> OverviewFormat {
    if is_prometheus {
        OverviewFormat::Prometheus
    } else if is_json {
        OverviewFormat::Json
    } else {
        OverviewFormat::Tables
    }
}

// A text that may be left out.
pub(crate) fn text_of(text: &Option<Text>) -> Option<&str> {
    match text {
        Some(text) => Some(text.as_str()),
        None => None,
    }
}

// The file of a desk, and the room for what is kept of it in memory.
pub(crate) fn file_of<'a>(db: &'a Text, cache: Option<u64>) -> DeskFile<'a> {
    DeskFile {
        name: db.as_str(),
        cache,
    }
}

// The same, if there is a file.
pub(crate) fn file_or_none<'a>(db: &'a Option<Text>, cache: Option<u64>) -> Option<DeskFile<'a>> {
    match db {
        Some(db) => Some(file_of(db, cache)),
        None => None,
    }
}
