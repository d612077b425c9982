//! What was made and found so far.
//!
//! It remembers that memory was refused, so that what converts has no exits for that.
ghost use Rattle.std.specs.Prelude.{◌≡◌, ◌∷◌, ◌++◌, [], true, false, IfOk, IfErr, string_bytes};

use crate::documents::ManifestObject;
use crate::draft::Draft;
use crate::finding::{Finding, Findings};
use crate::json::{list_in, member};
use crate::manifest_place::ManifestPlace;
use canary_base::error::Memory;
use serde_json::Value;
use std::alloc::Global;

/// A manifest as the desk takes it.
#[derive(Drop)]
pub struct Made {
    /// The index of the source.
    pub source: u32,
    /// The keys that lead to its document in the source: `items[3]` of a list, else empty.
    pub path: String,
    /// The name of the template or the service.
    pub name: String,
    /// The manifest, one text of JSON.
    pub json: String,
}

/// How an agent measures a metric of a service.
#[derive(Drop)]
pub struct Planned {
    pub service: String,
    /// The name of the metric at the desk; its end says how values are reported.
    pub label: String,
    /// The name of the desk's template.
    pub template: String,
    /// The name of the metric in the manifest.
    pub metric: String,
    /// The key of the provider, as `prometheus`.
    pub kind: String,
    /// The provider, with its arguments filled in: an object of JSON, with one member.
    pub provider: String,
    /// What is known only as the agent measures: an object of JSON, with a member for each argument
    /// of which a place `{{args.NAME}}` is left in the provider. It has `podTemplateHashValue`, or
    /// `secretKeyRef`, as the manifest has it.
    pub late: String,
}

/// What was made and found so far.
#[derive(Drop)]
pub(crate) struct Conversion {
    pub(crate) alloc: Global,
    pub(crate) findings: Findings,
    pub(crate) notes: Findings,
    pub(crate) warnings: Findings,
    pub(crate) templates: Vec<Made>,
    pub(crate) services: Vec<Made>,
    pub(crate) plan: Vec<Planned>,
    // The indices of the documents of templates that Rollouts name.
    used: Vec<usize>,
    // The first metric of which NaN is no number.
    nan: Option<ManifestPlace>,
    is_refused: bool,
}

const NAN: &str =
    "NaN beside asInt is a failure here, an Error; what Argo makes of it depends on the \
    processor: leave asInt out where NaN is to count (said once, for all metrics)";

const TWO_TEMPLATES: &str = " is made in two ways: of two analyses of one Rollout that fill in \
    other values, or of two templates: write two templates, or other names";

const TWO_METRICS: &str = " is asked in two ways in Rollout ";

const TWO_NAMES: &str = ": give the metrics two names";

// Whether the manifest of that name is this text; none if there is none.
fn made_as(made: &[Made], name: &str, json: &str) -> Option<bool> {
    for known in made {
        if known.name.as_str() == name {
            return Some(known.json.as_str() == json);
        }
    }
    None
}

// Whether the metric of that service and label is measured as this one; none if there is none.
fn planned_as(plan: &[Planned], planned: &Planned) -> Option<bool> {
    for known in plan {
        if known.is_of(planned) {
            return Some(known.is_asked_as(planned));
        }
    }
    None
}

impl Planned {
    // Whether both are of one service, and have one label there.
    fn is_of(&self, other: &Planned) -> bool {
        self.service.as_str() == other.service.as_str()
            && self.label.as_str() == other.label.as_str()
    }

    // Whether both are one metric of the manifest, with one provider and the same late arguments.
    fn is_asked_as(&self, other: &Planned) -> bool {
        self.metric.as_str() == other.metric.as_str()
            && self.provider.as_str() == other.provider.as_str()
            && self.late.as_str() == other.late.as_str()
    }
}

impl Conversion {
    /// Nothing.
    pub(crate) fn new(alloc: Global) -> Conversion {
        Conversion {
            alloc,
            findings: Findings::new(alloc),
            notes: Findings::new(alloc),
            warnings: Findings::new(alloc),
            templates: Vec::new(alloc),
            services: Vec::new(alloc),
            plan: Vec::new(alloc),
            used: Vec::new(alloc),
            nan: None,
            is_refused: false,
        }
    }

    // ---- memory

    /// Itself, or `Memory` if that was refused. What was made and found is of no use then.
    pub(crate) fn unless_refused(self) -> Result<Conversion, Memory>
        ensures { IfOk result (λ _. self.is_refused ≡ false) }
    {
        if self.is_refused {
            return Err(Memory);
        }
        Ok(self)
    }

    /// Remembers that memory was refused.
    pub(crate) fn refuse(&mut self)
        ensures { self.new.is_refused ≡ true }
    {
        self.is_refused = true;
    }

    // Remembers that memory was refused, if this says so.
    fn remember(&mut self, done: Result<(), Memory>)
        ensures kept { self.new.is_refused ≡ false → self.old.is_refused ≡ false }
        ensures refused { IfErr done (λ _. self.new.is_refused ≡ true) }
    {
        if done.is_err() {
            self.is_refused = true;
        }
    }

    /// What was written; an empty text if memory was refused, which is remembered.
    pub(crate) fn end(&mut self, draft: Draft) -> String
        ensures { self.new.is_refused ≡ false → (draft.is_refused ≡ false)
            × (string_bytes result ≡ string_bytes draft.text) }
    {
        match draft.end() {
            Ok(text) => text,
            Err(_) => self.no_text(),
        }
    }

    /// A copy of this text; an empty one if memory was refused, which is remembered.
    pub(crate) fn copy(&mut self, text: &str) -> String
        ensures { self.new.is_refused ≡ false → string_bytes result ≡ text.now }
    {
        match String::from_str(self.alloc, text) {
            Ok(text) => text,
            Err(_) => self.no_text(),
        }
    }

    // An empty text, since memory was refused.
    fn no_text(&mut self) -> String
        ensures { self.new.is_refused ≡ true }
    {
        self.is_refused = true;
        String::new(self.alloc)
    }

    // ---- what is found

    /// Adds a finding, in parts that follow one another.
    pub(crate) fn tell(&mut self, place: ManifestPlace, parts: &[&str]) {
        self.tell_at(place, None, parts);
    }

    /// The same of that byte of a condition.
    pub(crate) fn tell_at(&mut self, place: ManifestPlace, at: Option<usize>, parts: &[&str]) {
        let finding = self.finding(place, at, parts);
        let added = self.findings.add(finding);
        self.remember(added);
    }

    /// Adds a note, in parts that follow one another.
    pub(crate) fn note(&mut self, place: ManifestPlace, parts: &[&str]) {
        let finding = self.finding(place, None, parts);
        let added = self.notes.add(finding);
        self.remember(added);
    }

    /// Adds a warning of the member of that key of what stands there, in parts that follow one
    /// another.
    pub(crate) fn warn(&mut self, place: ManifestPlace, key: &str, parts: &[&str]) {
        let warning = self.finding_of(place, place.path_to(self.alloc, key), None, parts);
        let added = self.warnings.add(warning);
        self.remember(added);
    }

    // A finding at a place, in parts that follow one another.
    fn finding(&mut self, place: ManifestPlace, at: Option<usize>, parts: &[&str]) -> Finding {
        self.finding_of(place, place.path(self.alloc), at, parts)
    }

    // A finding at a place, of this path, in parts that follow one another.
    fn finding_of(
        &mut self,
        place: ManifestPlace,
        path: Draft,
        at: Option<usize>,
        parts: &[&str],
    ) -> Finding {
        let mut text = Draft::new(self.alloc);
        for part in parts {
            text.put_plain(part);
        }
        Finding {
            source: place.source,
            path: self.end(path),
            text: self.end(text),
            at,
        }
    }

    /// Says that NaN is a failure there.
    pub(crate) fn see_nan(&mut self, place: ManifestPlace) {
        if self.nan.is_none() {
            self.nan = Some(place);
        }
    }

    /// Adds the note on NaN, once, if it is a failure of a metric.
    pub(crate) fn close(&mut self) {
        if let Some(place) = self.nan {
            self.note(place, &[NAN]);
        }
    }

    // ---- what is made

    /// The manifest of that name that is made of a document.
    pub(crate) fn made(&mut self, document: &ManifestObject, name: &str, json: Draft) -> Made {
        Made {
            source: document.source,
            path: self.end(document.place().path(self.alloc)),
            name: self.copy(name),
            json: self.end(json),
        }
    }

    /// Adds a service.
    pub(crate) fn add_service(&mut self, made: Made)
        ensures { self.new.is_refused ≡ false → (self.old.is_refused ≡ false)
            × (self.new.services.items ≡ self.old.services.items ++ made ∷ []) }
    {
        if self.services.push(made).is_err() {
            self.is_refused = true;
        }
    }

    /// Adds a template. If there is another one of its name, it reports that.
    pub(crate) fn add_template(&mut self, place: ManifestPlace, made: Made) {
        match made_as(
            self.templates.as_slice(),
            made.name.as_str(),
            made.json.as_str(),
        ) {
            None => self.push_template(made),
            Some(true) => {}
            Some(false) => self.tell(place, &[made.name.as_str(), TWO_TEMPLATES]),
        }
    }

    // Adds a template of a new name.
    fn push_template(&mut self, made: Made)
        ensures { self.new.is_refused ≡ false → (self.old.is_refused ≡ false)
            × (self.new.templates.items ≡ self.old.templates.items ++ made ∷ []) }
    {
        if self.templates.push(made).is_err() {
            self.is_refused = true;
        }
    }

    /// Adds how a metric is measured. If another metric of its service has its label, and is
    /// measured otherwise, it reports that.
    pub(crate) fn plan(&mut self, place: ManifestPlace, planned: Planned) {
        match planned_as(self.plan.as_slice(), &planned) {
            None => self.push_planned(planned),
            Some(true) => {}
            Some(false) => self.tell_two(place, &planned),
        }
    }

    // Adds how a metric is measured.
    fn push_planned(&mut self, planned: Planned)
        ensures { self.new.is_refused ≡ false → (self.old.is_refused ≡ false)
            × (self.new.plan.items ≡ self.old.plan.items ++ planned ∷ []) }
    {
        if self.plan.push(planned).is_err() {
            self.is_refused = true;
        }
    }

    // Adds that a metric is asked in two ways.
    fn tell_two(&mut self, place: ManifestPlace, planned: &Planned) {
        let (label, service) = (planned.label.as_str(), planned.service.as_str());
        self.tell(place, &[label, TWO_METRICS, service, TWO_NAMES]);
    }

    /// Notes that a Rollout names the template of that document.
    pub(crate) fn set_used(&mut self, index: usize)
        ensures { self.new.is_refused ≡ false → (self.old.is_refused ≡ false)
            × (self.new.used.items ≡ self.old.used.items ++ index ∷ []) }
    {
        if self.used.push(index).is_err() {
            self.is_refused = true;
        }
    }

    /// Whether a Rollout names the template of that document.
    pub(crate) fn is_used(&self, index: usize) -> bool {
        for used in &self.used {
            if *used == index {
                return true;
            }
        }
        false
    }

    // ---- what is read

    /// The object under that key. If there is something else, it reports that.
    pub(crate) fn object_at<'a>(
        &mut self,
        place: ManifestPlace,
        value: &'a Value,
        key: &str,
    ) -> Option<&'a Value> {
        let found = member(value, key)?;
        if found.is_object() {
            return Some(found);
        }
        self.tell(place, &["expected an object"]);
        None
    }

    /// The list under that key, of at most 64 items. If there is something else, it reports that.
    pub(crate) fn list_at<'a>(
        &mut self,
        place: ManifestPlace,
        value: &'a Value,
        key: &str,
    ) -> Option<&'a Vec<Value>> {
        let found = list_in(member(value, key)?);
        if found.is_none() {
            self.tell(place, &["expected a list, of 64 items at most"]);
        }
        found
    }
}
