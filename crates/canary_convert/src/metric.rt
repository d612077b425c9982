//! A metric of a template.
ghost use Rattle.std.specs.Prelude.{IfOk, string_bytes};
ghost use Rattle.canary_convert.specs.Making.{IsQuotedTranslation};

use crate::arguments::{Case, push_late};
use crate::draft::Draft;
use crate::filling::{Mode, has_place, is_given, push_filled};
use crate::json::{member, push_comma, push_key, push_text, quoted, text_at};
use crate::manifest_place::ManifestPlace;
use crate::work::{Conversion, Planned};
use canary_argo::fault::{SyntaxFinding, TranslationFault};
use canary_argo::form::{Form, Needs, Shape};
use canary_argo::translation::translate;
use canary_base::names::Label;
use serde_json::Value;
use std::alloc::Global;

const SUCCESS: &str = "successCondition";

const FAILURE: &str = "failureCondition";

// The members that the desk reads, the name and the conditions first.
const DESK: [&str; 11] = [
    "name",
    SUCCESS,
    FAILURE,
    "interval",
    "initialDelay",
    "count",
    "failureLimit",
    "inconclusiveLimit",
    "consecutiveErrorLimit",
    "consecutiveSuccessLimit",
    "passAfter",
];

/// A metric of a template.
#[derive(Clone, Copy)]
pub(crate) struct TemplateMetric<'a> {
    pub(crate) case: Case<'a>,
    pub(crate) place: ManifestPlace,
    pub(crate) metric: &'a Value,
}

/// How a metric is called at the desk, and in which form its values are reported; none if its
/// conditions are the desk's own.
#[derive(Clone, Copy)]
pub(crate) struct Called {
    name: Label,
    pub(crate) label: Label,
    form: Option<Form>,
}

// ---- places to be filled in

/// Whether a member that the desk reads has a place.
pub(crate) fn has_desk_place(metric: &Value) -> bool {
    for key in DESK {
        if has_place(text_at(metric, key)) {
            return true;
        }
    }
    false
}

/// Whether each place in a member that the desk reads can be filled in.
pub(crate) fn is_desk_given(case: &Case, metric: &Value) -> bool {
    for key in DESK {
        if !is_given(case, text_at(metric, key)) {
            return false;
        }
    }
    true
}

// ---- names and forms

const PROVIDER: &str = "expected an object with one provider: write a metric for each";

const KAYENTA: &str = "kayenta is not asked: write the metrics of its canary judgement one by one";

const JOB: &str = "a job has no result: leave the conditions of the metric out";

const LABEL: &str = "expected 1 to 63 bytes of A-Z a-z 0-9 . _ -";

const SUFFIXED: &str = "a name that ends as that of a translated metric: write another one";

const UNCONDITIONAL: &str =
    "without a condition Argo takes each result as Successful; here null, a text and an empty \
    list are failures (Error)";

// The key of the provider, empty if there is none. If it is not asked, that is reported.
fn kind_of<'a>(work: &mut Conversion, spot: &TemplateMetric<'a>) -> Option<&'a str> {
    let Some(provider) = member(spot.metric, "provider") else {
        return Some("");
    };
    let kind = only_key(provider);
    let fault = fault_of_kind(kind, spot.metric);
    if fault.is_empty() {
        return Some(kind);
    }
    work.tell(spot.place.end("provider"), &[fault]);
    None
}

// Why a provider of that kind is not asked; empty if it is.
fn fault_of_kind(kind: &str, metric: &Value) -> &'static str {
    if kind.is_empty() {
        PROVIDER
    } else if kind == "kayenta" {
        KAYENTA
    } else if kind == "job" && has_condition(metric) {
        JOB
    } else {
        ""
    }
}

// The key of the only member that is not null; empty if there are none or several.
fn only_key(value: &Value) -> &str {
    let Some(members) = value.as_object() else {
        return "";
    };
    let mut only = None;
    for (key, member) in members.iter() {
        if !member.is_null() {
            if only.is_some() {
                return "";
            }
            only = Some(key.as_str());
        }
    }
    only.unwrap_or("")
}

// Whether the metric has a condition, of success or of failure, that is not empty.
fn has_condition(metric: &Value) -> bool {
    !text_at(metric, SUCCESS).is_empty() || !text_at(metric, FAILURE).is_empty()
}

// The name, with its places filled in. If it is invalid, that is reported.
fn name_of(work: &mut Conversion, spot: &TemplateMetric) -> Option<Label> {
    match filled_text(work, spot, "name") {
        Some(name) => read_name(work, spot, name.as_str()),
        None => None,
    }
}

// The label of that name. If it is invalid, or ends as a translated one, that is reported.
fn read_name(work: &mut Conversion, spot: &TemplateMetric, name: &str) -> Option<Label> {
    let label = Label::read(name.as_bytes());
    let fault = if label.is_none() {
        LABEL
    } else if is_suffixed(name) {
        SUFFIXED
    } else {
        return label;
    };
    work.tell(spot.place.end("name"), &[fault]);
    None
}

// Without the letter for what is reported beside decimals.
fn without_letter(text: &str) -> &str {
    let rest = text.strip_suffix("n").or(text.strip_suffix("i"));
    rest.or(text.strip_suffix("s")).unwrap_or(text)
}

// Whether it ends as `form::Form::suffix` writes it.
fn is_suffixed(name: &str) -> bool {
    match name.rsplit_once(".e") {
        Some((_, end)) => {
            let places = without_shape(end);
            are_digits(without_letter(places))
        }
        None => false,
    }
}

// The text without the letter and the number of a shape at its end.
fn without_shape(end: &str) -> &str {
    for letter in ["p", "l"] {
        if let Some((front, count)) = end.rsplit_once(letter) {
            if are_digits(count) {
                return front;
            }
        }
    }
    end.strip_suffix("f").unwrap_or(end)
}

// Whether the text is digits alone, and has one at least.
fn are_digits(text: &str) -> bool {
    for byte in text.as_bytes() {
        if !byte.is_ascii_digit() {
            return false;
        }
    }
    !text.is_empty()
}

// Appends the text under that key, with its places filled in. If it is no text, or a place cannot
// be filled in, that is reported, and false returned.
fn push_plain(
    work: &mut Conversion,
    spot: &TemplateMetric,
    key: &'static str,
    out: &mut Draft,
) -> bool {
    let place = spot.place.end(key);
    match member(spot.metric, key) {
        Some(member) if !member.is_string() => {
            work.tell(place, &["expected a text"]);
            false
        }
        _ => {
            let text = text_at(spot.metric, key);
            push_filled(work, &spot.case, place, Mode::Plain, text, out)
        }
    }
}

// The text under that key, with its places filled in, empty if memory was refused, which is
// remembered; none if it is no text, or a place cannot be filled in, which is reported.
fn filled_text(work: &mut Conversion, spot: &TemplateMetric, key: &'static str) -> Option<String> {
    let mut text = Draft::new(work.alloc);
    let is_filled = push_plain(work, spot, key, &mut text);
    let text = work.end(text);
    if is_filled { Some(text) } else { None }
}

/// How the metric is called at the desk. If it has no valid name there, that is
/// reported.
pub(crate) fn call(work: &mut Conversion, spot: &TemplateMetric) -> Option<Called> {
    let kind = kind_of(work, spot)?;
    let name = name_of(work, spot)?;
    if kind.is_empty() || kind == "job" {
        return Some(Called {
            name,
            label: name,
            form: None,
        });
    }
    let form = form_of(work, spot, kind)?;
    labelled(work, spot, name, form)
}

// The name with the suffix of its form. If both together are too long, that is reported.
fn labelled(
    work: &mut Conversion,
    spot: &TemplateMetric,
    name: Label,
    form: Form,
) -> Option<Called> {
    let text = suffixed(work, name, form);
    let label = read_long(work, spot, text.as_str())?;
    Some(Called {
        name,
        label,
        form: Some(form),
    })
}

// The name with the suffix of this form after it.
fn suffixed(work: &mut Conversion, name: Label, form: Form) -> String {
    let mut text = work.copy(name.as_str());
    if form.suffix(&mut text).is_err() {
        work.refuse();
    }
    text
}

// The label of that name with its suffix. If it is too long, that is reported.
fn read_long(work: &mut Conversion, spot: &TemplateMetric, text: &str) -> Option<Label> {
    let label = Label::read(text.as_bytes());
    if label.is_none() {
        let parts = &[text, " is longer than 63 bytes: write a shorter name"];
        work.tell(spot.place.end("name"), parts);
    }
    label
}

// ---- conditions

// The form in which the values are reported. If a condition is not translated, that is
// reported.
fn form_of(work: &mut Conversion, spot: &TemplateMetric, kind: &str) -> Option<Form> {
    let success = filled_text(work, spot, SUCCESS);
    let failure = filled_text(work, spot, FAILURE);
    match (&success, &failure) {
        (Some(success), Some(failure)) => {
            form_of_conditions(work, spot, kind, success.as_str(), failure.as_str())
        }
        _ => None,
    }
}

// The form that both conditions together need; without any, that of the provider's kind, with a
// note of what fails by it.
fn form_of_conditions(
    work: &mut Conversion,
    spot: &TemplateMetric,
    kind: &str,
    success: &str,
    failure: &str,
) -> Option<Form> {
    if success.is_empty() && failure.is_empty() {
        work.note(spot.place, &[UNCONDITIONAL]);
        return Some(unconditional_form(kind));
    }
    let none = Needs::none();
    let first = with_condition(work, spot, SUCCESS, none, success);
    let both = with_condition(work, spot, FAILURE, first.unwrap_or(none), failure);
    first?;
    form_of_needs(work, spot, both?)
}

// The form of a metric without a condition: Prometheus answers a list.
fn unconditional_form(kind: &str) -> Form {
    Form::plain(if kind == "prometheus" {
        Shape::First
    } else {
        Shape::One
    })
}

// The form that fits these needs. If there is no such form, that is reported.
fn form_of_needs(work: &mut Conversion, spot: &TemplateMetric, needs: Needs) -> Option<Form> {
    match needs.form() {
        Ok(form) => Some(form),
        Err(why) => {
            work.tell(spot.place, &[why.text()]);
            None
        }
    }
}

// The needs, with those of this condition, unless it is empty. A fault of it is reported.
fn with_condition(
    work: &mut Conversion,
    spot: &TemplateMetric,
    key: &'static str,
    needs: Needs,
    text: &str,
) -> Option<Needs> {
    if text.is_empty() {
        return Some(needs);
    }
    match needs.with_condition(work.alloc, text) {
        Ok(needs) => Some(needs),
        Err(fault) => {
            tell_fault(work, spot, key, text, fault);
            None
        }
    }
}

// Adds why a condition is not translated. If places of it were filled in, it is shown.
fn tell_fault(
    work: &mut Conversion,
    spot: &TemplateMetric,
    key: &'static str,
    text: &str,
    fault: TranslationFault,
) {
    let place = spot.place.end(key);
    match fault {
        TranslationFault::Memory => work.refuse(),
        TranslationFault::Refused(SyntaxFinding { why, at }) if text == text_at(spot.metric, key) =>
            { work.tell_at(place, Some(at), &[why.text()]) }
        TranslationFault::Refused(SyntaxFinding { why, .. }) => {
            tell_filled(work, place, why.text(), text);
        }
    }
}

// Adds why a condition is not translated, with its text, which the manifest does not show so.
fn tell_filled(work: &mut Conversion, place: ManifestPlace, why: &str, text: &str) {
    work.tell(place, &[why, " (filled in: ", text, ")"]);
}

// ---- the desk's metric

/// Appends the metric as the desk reads it, and reports what is wrong with it.
pub(crate) fn push_metric(work: &mut Conversion, spot: &TemplateMetric, out: &mut Draft) {
    if let Some(called) = call(work, spot) {
        push_called(work, spot, called, out);
    }
}

// Appends the metric under that name.
fn push_called(work: &mut Conversion, spot: &TemplateMetric, called: Called, out: &mut Draft) {
    push_comma(out);
    out.put("{\"name\":");
    push_text(out, called.label.as_str());
    push_conditions(work, spot, called, out);
    for key in &DESK[3..] {
        push_desk_member(work, spot, *key, out);
    }
    out.put("}");
}

// Appends the conditions: translated; for a job, that its result is 1; or else the desk's own.
fn push_conditions(work: &mut Conversion, spot: &TemplateMetric, called: Called, out: &mut Draft) {
    match called.form {
        Some(form) => {
            push_translated(work, spot, SUCCESS, form, out);
            push_translated(work, spot, FAILURE, form, out);
        }
        None if member(spot.metric, "provider").is_some() => {
            push_key(out, SUCCESS);
            push_text(out, "result == 1");
        }
        None => {
            push_desk_member(work, spot, SUCCESS, out);
            push_desk_member(work, spot, FAILURE, out);
        }
    }
}

// Appends the condition under that key, translated.
fn push_translated(
    work: &mut Conversion,
    spot: &TemplateMetric,
    key: &'static str,
    form: Form,
    out: &mut Draft,
) {
    if let Some(text) = filled_text(work, spot, key) {
        if !text.as_str().is_empty() {
            push_translation(work, spot, key, form, text.as_str(), out);
        }
    }
}

// Appends the translation of a condition, and notes if NaN fails by it.
fn push_translation(
    work: &mut Conversion,
    spot: &TemplateMetric,
    key: &'static str,
    form: Form,
    text: &str,
    out: &mut Draft,
) {
    match quoted_translation(work.alloc, text, form) {
        Ok(condition) => {
            if !form.has_nan() {
                work.see_nan(spot.place);
            }
            push_key(out, key);
            out.put(condition.as_str());
        }
        Err(fault) => tell_fault(work, spot, key, text, fault),
    }
}

// The translation of a condition, as a text of JSON.
fn quoted_translation(alloc: Global, text: &str, form: Form) -> Result<String, TranslationFault>
    ensures { IfOk result (λ json. IsQuotedTranslation text.now form (string_bytes json)) }
{
    let condition = translate(alloc, text, form)?;
    Ok(quoted(alloc, condition.as_str())?)
}

// Appends the member of that key, with its places filled in.
fn push_desk_member(
    work: &mut Conversion,
    spot: &TemplateMetric,
    key: &'static str,
    out: &mut Draft,
) {
    if let Some(member) = member(spot.metric, key) {
        push_key(out, key);
        push_filled_value(work, spot, key, Mode::Json, member, out);
    }
}

// Appends a value, with its places filled in.
fn push_filled_value(
    work: &mut Conversion,
    spot: &TemplateMetric,
    key: &'static str,
    mode: Mode,
    value: &Value,
    out: &mut Draft,
) {
    let mut text = Draft::new(work.alloc);
    text.put_value(value);
    let text = work.end(text);
    push_filled(
        work,
        &spot.case,
        spot.place.end(key),
        mode,
        text.as_str(),
        out,
    );
}

// ---- the agent's plan

/// Adds how an agent measures the metric, if it has a provider.
pub(crate) fn plan_metric(work: &mut Conversion, spot: &TemplateMetric, template: &str) {
    let Some(provider) = member(spot.metric, "provider") else {
        return;
    };
    if let Some(called) = call(work, spot) {
        let planned = planned_of(work, spot, called, provider, template);
        work.plan(spot.place, planned);
    }
}

// How the metric of that name is measured.
fn planned_of(
    work: &mut Conversion,
    spot: &TemplateMetric,
    called: Called,
    provider: &Value,
    template: &str,
) -> Planned {
    let mut filled = Draft::new(work.alloc);
    push_filled_value(work, spot, "provider", Mode::Late, provider, &mut filled);
    let late = late_of(work, &spot.case, filled.as_str());
    Planned {
        service: work.copy(spot.case.service()),
        label: work.copy(called.label.as_str()),
        template: work.copy(template),
        metric: work.copy(called.name.as_str()),
        kind: work.copy(only_key(provider)),
        provider: work.end(filled),
        late,
    }
}

// What of this provider is known only as the agent measures, as an object.
fn late_of(work: &mut Conversion, case: &Case, provider: &str) -> String {
    let mut late = Draft::new(work.alloc);
    late.put("{");
    push_late(case, provider, &mut late);
    late.put("}");
    work.end(late)
}
