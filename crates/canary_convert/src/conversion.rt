//! The conversion of manifests.
ghost use Rattle.std.specs.Prelude.{IfOk};
ghost use Rattle.canary_convert.specs.Making.{IsAllOrNothing};

use crate::arguments::Case;
use crate::documents::{ManifestObject, documents_of, index_of};
use crate::finding::Finding;
use crate::manifest_place::ManifestPlace;
use crate::rollout::convert_rollout;
use crate::source::Source;
use crate::template::{convert_template, is_ready, tell_template};
use crate::work::{Conversion, Made, Planned};
use canary_base::error::Memory;
use canary_base::names::Name;
use std::alloc::Global;

/// What manifests are converted to; nothing if there are findings.
#[derive(Drop)]
pub struct Converted {
    /// The desk's AnalysisTemplates.
    pub templates: Vec<Made>,
    /// The desk's Rollouts.
    pub services: Vec<Made>,
    /// How an agent measures their metrics.
    pub plan: Vec<Planned>,
    /// What keeps the manifests from being converted.
    pub findings: Vec<Finding>,
    /// What was left out, or means something else here.
    pub notes: Vec<Finding>,
    /// What Argo does not know, as misspelt members are.
    pub warnings: Vec<Finding>,
    /// How many findings, notes and warnings came after these: of each there are 100 at most.
    pub more_findings: u64,
    pub more_notes: u64,
    pub more_warnings: u64,
}

// The most documents: what is looked up among them is looked up one by one.
const MAX_DOCUMENTS: usize = 1_000;

const DOCUMENTS: &str = "more than 1,000 documents: convert fewer at a time";

const KINDS: &str = "expected AnalysisTemplate, Rollout or List";

const NAME: &str = "expected 1 to 63 bytes of a-z 0-9 -, the first and the last no -";

const IGNORED: &str = ": ignored; only AnalysisTemplates and Rollouts are converted";

const TWICE: &str = " is there already: leave one of the two out";

const UNUSED: &str = "nothing is made of it: no Rollout names it, and arguments of what the desk \
    reads have no value";

// A kind that is refused, and what to write.
struct Refused {
    kind: &'static str,
    instead: &'static str,
}

const REFUSED: [Refused; 6] = [
    Refused {
        kind: "ClusterAnalysisTemplate",
        instead: "ClusterAnalysisTemplate: write an AnalysisTemplate",
    },
    Refused {
        kind: "Experiment",
        instead: "Experiment: write an AnalysisTemplate, and a step with an analysis of it",
    },
    Refused {
        kind: "AnalysisRun",
        instead: "AnalysisRun: write the AnalysisTemplate of which it is a run",
    },
    Refused {
        kind: "List",
        instead: "List: expected items, which are no Lists",
    },
    Refused {
        kind: "AnalysisTemplateList",
        instead: "AnalysisTemplateList: write a List, with the kind of each item",
    },
    Refused {
        kind: "RolloutList",
        instead: "RolloutList: write a List, with the kind of each item",
    },
];

/// Converts manifests of Argo Rollouts, as they are. The manifests are those of AnalysisTemplates
/// and Rollouts, also as items of a `List`.
///
/// # Errors
/// `Memory` if an allocation was refused.
pub fn convert(alloc: Global, sources: &[Source]) -> Result<Converted, Memory>
    ensures { IfOk result IsAllOrNothing }
{
    let mut work = Conversion::new(alloc);
    convert_sources(&mut work, sources);
    Ok(outcome_of(work.unless_refused()?))
}

// Converts the documents of these sources, or reports that there are more than 1,000.
fn convert_sources(work: &mut Conversion, sources: &[Source]) {
    match documents_of(work.alloc, sources) {
        Ok(documents) if documents.len() > MAX_DOCUMENTS => {
            work.tell(ManifestPlace::of(0, None), &[DOCUMENTS]);
        }
        Ok(documents) => convert_documents(work, documents.as_slice()),
        Err(_) => work.refuse(),
    }
}

// Checks each document, converts the Rollouts, and then the templates that no Rollout names.
fn convert_documents(work: &mut Conversion, documents: &[ManifestObject]) {
    for (index, document) in documents.iter().enumerate() {
        look_at(work, documents, index, document);
    }
    for document in documents {
        if document.kind() == "Rollout" {
            convert_rollout(work, documents, document);
        }
    }
    for (index, document) in documents.iter().enumerate() {
        if document.kind() == "AnalysisTemplate" && !work.is_used(index) {
            convert_unused(work, document);
        }
    }
    work.close();
}

// What was made, or else what was found.
fn outcome_of(work: Conversion) -> Converted
    ensures { IsAllOrNothing result }
{
    let Conversion {
        alloc,
        findings,
        notes,
        warnings,
        templates,
        services,
        plan,
        ..
    } = work;
    let (more_findings, more_notes, more_warnings) = (findings.more, notes.more, warnings.more);
    let (findings, notes, warnings) = (findings.list, notes.list, warnings.list);
    if findings.is_empty() {
        return Converted {
            templates,
            services,
            plan,
            findings,
            notes,
            warnings,
            more_findings,
            more_notes,
            more_warnings,
        };
    }
    Converted {
        templates: Vec::new(alloc),
        services: Vec::new(alloc),
        plan: Vec::new(alloc),
        findings,
        notes,
        warnings,
        more_findings,
        more_notes,
        more_warnings,
    }
}

// Adds what is wrong with a document, but for what it uses.
fn look_at(
    work: &mut Conversion,
    documents: &[ManifestObject],
    index: usize,
    document: &ManifestObject,
) {
    let place = document.place();
    match look_of(document) {
        Look::Nothing => {}
        Look::NoKind => work.tell(place.at("kind"), &[KINDS]),
        Look::Refused(instead) => work.tell(place, &[instead]),
        Look::Ignored => work.note(place, &[document.kind(), " ", document.name(), IGNORED]),
        Look::Rollout => look_at_name(work, documents, index, document),
        Look::Template => {
            look_at_name(work, documents, index, document);
            tell_template(work, document);
        }
    }
}

// What is looked at in a document.
#[derive(Clone, Copy)]
enum Look {
    Nothing,
    NoKind,
    // What to write in place of a kind.
    Refused(&'static str),
    Ignored,
    Rollout,
    Template,
}

// What is looked at in this document, by its kind.
fn look_of(document: &ManifestObject) -> Look {
    let kind = document.kind();
    if document.value.is_null() {
        Look::Nothing
    } else if kind.is_empty() {
        Look::NoKind
    } else if kind == "Rollout" {
        Look::Rollout
    } else if kind == "AnalysisTemplate" {
        Look::Template
    } else {
        match instead_of(kind) {
            Some(instead) => Look::Refused(instead),
            None => Look::Ignored,
        }
    }
}

// What to write in place of a document of that kind, if the kind is refused.
fn instead_of(kind: &str) -> Option<&'static str> {
    for refused in &REFUSED {
        if refused.kind == kind {
            return Some(refused.instead);
        }
    }
    None
}

// Adds that a document has an invalid name, or that of another one of its kind before it.
fn look_at_name(
    work: &mut Conversion,
    documents: &[ManifestObject],
    index: usize,
    document: &ManifestObject,
) {
    let (kind, name) = (document.kind(), document.name());
    let place = document.place().at("metadata.name");
    if Name::read(name.as_bytes()).is_none() {
        work.tell(place, &[NAME]);
    } else if index_of(documents, kind, name) != Some(index) {
        work.tell(place, &[kind, " ", name, TWICE]);
    }
}

// Converts a template that no Rollout names.
fn convert_unused(work: &mut Conversion, document: &ManifestObject) {
    let case = Case {
        template: *document,
        used_by: None,
    };
    if is_ready(&case) {
        convert_template(work, &case);
    } else {
        work.note(document.place(), &[UNUSED]);
    }
}
