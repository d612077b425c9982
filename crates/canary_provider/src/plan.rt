//! What a provider is asked, by the plan.
ghost use Rattle.std.specs.Prelude.{◌≡◌, Ok, Some, IfOk, codes};
ghost use Rattle.json.specs.Find.{as_str};
ghost use Rattle.json.specs.Tree.{HasNumbers};
ghost use Rattle.json.specs.Value.{value_view};
ghost use Rattle.canary_provider.specs.Answers.{text_at};
ghost use Rattle.canary_provider.specs.Plans.{IsPlan, IsAsked, IsPrometheus, IsWeb, IsMethod};
ghost use Rattle.canary_provider.specs.Plans.{IsPathAt, IsAddress, IsPlanAt, IsWebFields};
ghost use Rattle.canary_provider.specs.Plans.{given_at, method_text};

use crate::body::body_of;
use crate::fields::{add_length, add_type, fields_of, given_at};
use crate::line::HeaderLine;
use crate::path::Path;
use crate::refusal::ProviderRefusal;
use crate::stop::PlanFault;
use crate::target::{Method, ProviderTarget, host_line, provider_target, query_line, web_line};
use crate::values::text_at;
use canary_base::error::Memory;
use canary_base::lists::Text;
use json::{Error, Scratch, Value};
use std::alloc::Global;

/// How a reply is read.
#[derive(Drop)]
pub enum ReplyFormat {
    /// As an answer of Prometheus.
    Prometheus,
    /// As JSON, by the value at this path.
    Web(Path),
}

/// What a provider is asked. It may have a secret: print nothing of it.
#[derive(Drop)]
pub struct Provider {
    /// Its address, as it stands in the plan.
    pub address: Text,
    /// The first line of the message, the field `Host`, and the other fields.
    pub first: HeaderLine,
    pub host: HeaderLine,
    pub fields: Vec<HeaderLine>,
    /// The body of the message.
    pub body: Vec<u8>,
    /// How the reply is read.
    pub answer: ReplyFormat,
    /// The most seconds of the exchange, if the plan has any.
    pub seconds: Option<u64>,
}

const PROMETHEUS: [&str; 4] = ["address", "query", "timeout", "headers"];

const WEB: [&str; 7] = [
    "url",
    "method",
    "headers",
    "body",
    "jsonBody",
    "timeoutSeconds",
    "jsonPath",
];

impl Provider {
    /// What a provider of that kind is asked, by the plan: a text of JSON, an object with the
    /// provider. Or why it is not asked.
    ///
    /// # Errors
    /// `Memory` if an allocation was refused.
    pub fn read(
        alloc: Global,
        kind: &str,
        json: &str,
    ) -> Result<Result<Provider, ProviderRefusal>, Memory>
        ensures { IfOk result (λ read. IfOk read (IsAsked kind.now json.now)) }
    {
        let mut scratch = Scratch::new(alloc);
        match Value::parse(alloc, json, &mut scratch) {
            Ok(value) => settled(provider_of(alloc, kind, &value)),
            Err(Error::OutOfMemory) => Err(Memory),
            Err(_) => Ok(Err(ProviderRefusal::Provider)),
        }
    }
}

// The two reasons to stop, apart: a refusal is part of the result, `Memory` is the error.
fn settled(read: Result<Provider, PlanFault>) -> Result<Result<Provider, ProviderRefusal>, Memory>
    ensures { IfOk result (λ told. IfOk told (λ p. read ≡ Ok p)) }
{
    match read {
        Ok(provider) => Ok(Ok(provider)),
        Err(PlanFault::Refused(refusal)) => Ok(Err(refusal)),
        Err(PlanFault::Memory) => Err(Memory),
    }
}

// What a provider of that kind is asked by this value, which has its object under the kind.
fn provider_of(alloc: Global, kind: &str, value: &Value<'_>) -> Result<Provider, PlanFault>
    requires { HasNumbers (value_view value.now) }
    ensures { IfOk result (λ p. IsPlanAt kind.now (given_at kind.now (value_view value.now)) p) }
{
    if kind != "prometheus" && kind != "web" {
        return Err(PlanFault::Refused(ProviderRefusal::Kind));
    }
    match given_at(value, kind) {
        Some(plan) => of_kind(alloc, kind, plan),
        None => Err(PlanFault::Refused(ProviderRefusal::Provider)),
    }
}

// What a provider of that kind is asked by its own object.
fn of_kind(alloc: Global, kind: &str, value: &Value<'_>) -> Result<Provider, PlanFault>
    requires { HasNumbers (value_view value.now) }
    ensures { IfOk result (λ p. IsPlan kind.now (value_view value.now) p) }
{
    if kind == "prometheus" {
        prometheus(alloc, value)
    } else if kind == "web" {
        web(alloc, value)
    } else {
        Err(PlanFault::Refused(ProviderRefusal::Kind))
    }
}

// ---- Prometheus

// What Prometheus is asked by its object: a query at one moment.
fn prometheus(alloc: Global, value: &Value<'_>) -> Result<Provider, PlanFault>
    ensures { IfOk result (λ p. IsPrometheus (value_view value.now) p) }
{
    refuse_prometheus(value)?;
    let place = target_at(value, "address")?;
    let query = query_at(value)?;
    let seconds = seconds_at(value, "timeout")?;
    let first = query_line(alloc, place, query)?;
    let host = host_line(alloc, place)?;
    let fields = fields_of(alloc, value)?;
    Ok(Provider {
        address: Text::of(String::from_str(alloc, place.address)?),
        first,
        host,
        fields,
        body: Vec::new(alloc),
        answer: ReplyFormat::Prometheus,
        seconds,
    })
}

// Refuses a range query, and what else is not done for Prometheus.
fn refuse_prometheus(value: &Value<'_>) -> Result<(), ProviderRefusal> {
    if given_at(value, "rangeQuery").is_some() {
        return Err(ProviderRefusal::RangeQuery);
    }
    refuse(value, &PROMETHEUS, ProviderRefusal::Prometheus)
}

// The query, which is not empty.
fn query_at<'a>(value: &Value<'a>) -> Result<&'a str, ProviderRefusal>
    ensures { IfOk result (λ query. text_at (codes "query") (value_view value.now)
        ≡ Some query.now) }
{
    match text_at(value, "query") {
        Some(query) if !query.is_empty() => Ok(query),
        _ => Err(ProviderRefusal::Query),
    }
}

// ---- a service that answers in JSON

// What a service that answers in JSON is asked by its object.
fn web(alloc: Global, value: &Value<'_>) -> Result<Provider, PlanFault>
    requires { HasNumbers (value_view value.now) }
    ensures { IfOk result (λ p. IsWeb (value_view value.now) p) }
{
    refuse(value, &WEB, ProviderRefusal::Web)?;
    let place = target_at(value, "url")?;
    let method = method_at(value)?;
    let body = body_of(alloc, value, method)?;
    let seconds = seconds_at(value, "timeoutSeconds")?;
    let answer = answer_at(alloc, value)?;
    let first = web_line(alloc, method, place)?;
    let host = host_line(alloc, place)?;
    let fields = web_fields(alloc, value, method, body.is_json, body.bytes.len())?;
    Ok(Provider {
        address: Text::of(String::from_str(alloc, place.address)?),
        first,
        host,
        fields,
        body: body.bytes,
        answer,
        seconds,
    })
}

// The fields of a plan and of each message, and then the type and the length of the body.
fn web_fields(
    alloc: Global,
    value: &Value<'_>,
    method: Method,
    is_json: bool,
    length: usize,
) -> Result<Vec<HeaderLine>, PlanFault>
    ensures { IfOk result (λ fields.
        IsWebFields (value_view value.now) method is_json length fields.items) }
{
    let mut fields = fields_of(alloc, value)?;
    add_type(alloc, &mut fields, is_json)?;
    add_length(alloc, &mut fields, method, length)?;
    Ok(fields)
}

// The method that a plan names; GET if it names no method.
fn method_at(value: &Value<'_>) -> Result<Method, ProviderRefusal>
    ensures { IfOk result (IsMethod (given_at (codes "method") (value_view value.now))) }
{
    match given_at(value, "method") {
        Some(method) => method_of(method),
        None => Ok(Method::Get),
    }
}

// The method that this text is, in capitals; refused if it is another one, or no text.
fn method_of(value: &Value<'_>) -> Result<Method, ProviderRefusal>
    ensures { IfOk result (λ m. as_str (value_view value.now) ≡ Some (method_text m)) }
{
    let Some(text) = value.as_str() else {
        return Err(ProviderRefusal::Method);
    };
    if text == "GET" {
        Ok(Method::Get)
    } else if text == "POST" {
        Ok(Method::Post)
    } else if text == "PUT" {
        Ok(Method::Put)
    } else {
        Err(ProviderRefusal::Method)
    }
}

// How the reply is read: by the plan's `jsonPath`, or if it has no path, as the value itself.
fn answer_at(alloc: Global, value: &Value<'_>) -> Result<ReplyFormat, PlanFault>
    ensures { IfOk result (IsPathAt (given_at (codes "jsonPath") (value_view value.now))) }
{
    match given_at(value, "jsonPath") {
        Some(path) => path_of(alloc, path),
        None => Ok(ReplyFormat::Web(Path {
            steps: Vec::new(alloc),
        })),
    }
}

// The path that this text spells; refused if it spells no path, or is no text.
fn path_of(alloc: Global, value: &Value<'_>) -> Result<ReplyFormat, PlanFault>
    ensures { IfOk result (IsPathAt (Some (value_view value.now))) }
{
    let Some(text) = value.as_str() else {
        return Err(PlanFault::Refused(ProviderRefusal::Path));
    };
    match Path::read(alloc, text)? {
        Some(path) => Ok(ReplyFormat::Web(path)),
        None => Err(PlanFault::Refused(ProviderRefusal::Path)),
    }
}

// ---- both

// The place at the address under that key.
fn target_at<'a>(value: &Value<'a>, key: &str) -> Result<ProviderTarget<'a>, ProviderRefusal>
    ensures address { IfOk result
        (λ place. text_at key.now (value_view value.now) ≡ Some place.address.now) }
    ensures parts { IfOk result
        (λ place. IsAddress place.address.now place.authority.now place.target.now) }
{
    match text_at(value, key) {
        Some(text) => provider_target(text),
        None => Err(ProviderRefusal::Address),
    }
}

// The whole number of seconds under that key, if there is one; 0 is as if absent, as in Argo.
fn seconds_at(value: &Value<'_>, key: &str) -> Result<Option<u64>, ProviderRefusal> {
    match given_at(value, key) {
        None => Ok(None),
        Some(seconds) => match seconds.as_u64() {
            Some(0) => Ok(None),
            Some(seconds) => Ok(Some(seconds)),
            None => Err(ProviderRefusal::Seconds),
        },
    }
}

// Refuses what is not done, and members that are not known.
fn refuse(value: &Value<'_>, known: &[&str], why: ProviderRefusal) -> Result<(), ProviderRefusal> {
    if given_at(value, "authentication").is_some() {
        return Err(ProviderRefusal::Authentication);
    }
    if is_insecure(value) {
        return Err(ProviderRefusal::Insecure);
    }
    match value {
        Value::Object(members) => refuse_members(members.as_slice(), known, why),
        _ => Err(ProviderRefusal::Provider),
    }
}

// Whether a plan has an `insecure` that is anything but false.
fn is_insecure(value: &Value<'_>) -> bool {
    match given_at(value, "insecure") {
        Some(insecure) => insecure.as_bool() != Some(false),
        None => false,
    }
}

// Refuses an object, for that reason, that has a member whose key is not known.
fn refuse_members(
    members: &[(&str, Value<'_>)],
    known: &[&str],
    why: ProviderRefusal,
) -> Result<(), ProviderRefusal> {
    for (key, _) in members {
        if !is_known(known, key) {
            return Err(why);
        }
    }
    Ok(())
}

// Whether a member may be there: one of these, or one that is looked at before.
fn is_known(known: &[&str], key: &str) -> bool {
    for name in known {
        if *name == key {
            return true;
        }
    }
    key == "authentication" || key == "insecure" || key == "rangeQuery"
}
