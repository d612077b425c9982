//! The body of a message.
ghost use Rattle.std.specs.Prelude.{◌≡◌, [], Some, None, codes, false, true, IfOk, option_map};
ghost use Rattle.json.specs.Find.{as_str};
ghost use Rattle.json.specs.Print.{print};
ghost use Rattle.json.specs.Tree.{HasNumbers, json_tokens};
ghost use Rattle.json.specs.Value.{value_view};
ghost use Rattle.canary_provider.specs.Plans.{IsBody, given_at};

use crate::fields::given_at;
use crate::refusal::ProviderRefusal;
use crate::stop::PlanFault;
use crate::target::Method;
use json::{Value, to_vec};
use std::alloc::Global;

/// The body of a message.
#[derive(Drop)]
pub(crate) struct Body {
    pub(crate) bytes: Vec<u8>,
    pub(crate) is_json: bool,
}

/// The body that a plan has: a text as it is, or JSON, or nothing.
pub(crate) fn body_of(alloc: Global, value: &Value<'_>, method: Method) -> Result<Body, PlanFault>
    requires { HasNumbers (value_view value.now) }
    ensures { IfOk result (λ body. IsBody (given_at (codes "body") (value_view value.now))
        (given_at (codes "jsonBody") (value_view value.now)) body.bytes.items body.is_json) }
{
    match given_at(value, "jsonBody") {
        Some(json) => body_in_json(alloc, given_at(value, "body"), json, method),
        None => body_in_text(alloc, given_at(value, "body"), method),
    }
}

// The body that is JSON; refused if there is a text, too.
fn body_in_json(
    alloc: Global,
    text: Option<&Value<'_>>,
    json: &Value<'_>,
    method: Method,
) -> Result<Body, PlanFault>
    requires { HasNumbers (value_view json.now) }
    ensures { IfOk result (λ body. IsBody (option_map (λ v. value_view v.now) text.entry)
        (Some (value_view json.now)) body.bytes.items body.is_json) }
{
    if text.is_some() {
        return Err(PlanFault::Refused(ProviderRefusal::TwoBodies));
    }
    json_body(alloc, json, method)
}

// The body that is a text, if there is one.
fn body_in_text(alloc: Global, text: Option<&Value<'_>>, method: Method) -> Result<Body, PlanFault>
    ensures { IfOk result (λ body. IsBody (option_map (λ v. value_view v.now) text.entry)
        None body.bytes.items body.is_json) }
{
    match text {
        Some(text) => text_body(alloc, text, method),
        None => Ok(nothing(alloc)),
    }
}

// A body of no bytes, for a message without one.
fn nothing(alloc: Global) -> Body
    ensures { (result.bytes.items ≡ []) × (result.is_json ≡ false) }
{
    Body {
        bytes: Vec::new(alloc),
        is_json: false,
    }
}

// The body that is this text as it is; refused if it is no text, or the method is GET.
fn text_body(alloc: Global, text: &Value<'_>, method: Method) -> Result<Body, PlanFault>
    ensures { IfOk result (λ body. (as_str (value_view text.now) ≡ Some body.bytes.items)
        × (body.is_json ≡ false)) }
{
    let Some(text) = text.as_str() else {
        return Err(PlanFault::Refused(ProviderRefusal::Body));
    };
    take_body(method)?;
    Ok(Body {
        bytes: Vec::from_slice(alloc, text.as_bytes())?,
        is_json: false,
    })
}

// The body that is this value printed as JSON; refused if the method is GET.
fn json_body(alloc: Global, json: &Value<'_>, method: Method) -> Result<Body, PlanFault>
    requires { HasNumbers (value_view json.now) }
    ensures { IfOk result (λ body. (body.bytes.items ≡ print (json_tokens (value_view json.now)))
        × (body.is_json ≡ true)) }
{
    take_body(method)?;
    Ok(Body {
        bytes: to_vec(alloc, json)?,
        is_json: true,
    })
}

// A GET has none.
fn take_body(method: Method) -> Result<(), ProviderRefusal> {
    if method == Method::Get {
        Err(ProviderRefusal::BodyOfGet)
    } else {
        Ok(())
    }
}
