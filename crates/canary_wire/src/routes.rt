//! Routes: what a method and a target ask for.
ghost use Rattle.std.specs.Prelude.{◌≡◌, ◌≢◌, ◌↔◌, ◌==◌, List, ℕ, ◌++◌};
ghost use Rattle.std.specs.Prelude.{IsTrue, IfOk, IfErr, IfSome, IsOkUnless, MatchOption};
ghost use Rattle.std.specs.List.{before_first, position};
ghost use Rattle.canary_base.specs.Names.{is_name};
ghost use Rattle.canary_wire.specs.Routes.{the_rows, Target, request, service, history, run};
ghost use Rattle.canary_wire.specs.Routes.{IsPart, IsSplit, IsPathOf, HasNoRoute, StandsBehind};
ghost use Rattle.canary_wire.specs.Routes.{target_of, route_to, allowed_on, IsTargetRead, IsAsked};
ghost use Rattle.canary_wire.specs.Routes.{path_of};
ghost use Rattle.canary_wire.specs.ReplyTexts.{method_name};

use crate::rejection::{Allowed, Rejection};
use canary_base::names::Name;
use canary_base::numbers::Number;
use canary_once::event::Query;
use matchit::{InsertError, Router};
use std::alloc::Global;
use std::str;

// What a route leads to.
#[derive(Clone, Copy)]
pub(crate) enum Route {
    // A caller's request.
    Request,
    // A service.
    Service,
    // The history of a service.
    History,
    // A run of a service.
    Run,
}

// Whose request a message is, and under which number.
#[derive(Clone, Copy)]
pub(crate) struct Address {
    pub caller: Name,
    pub number: Number,
}

// What a message asks for.
#[derive(Clone, Copy)]
pub(crate) enum Wanted {
    // What the command in its body says.
    Request(Address),
    // To be shown something.
    Query(Query),
}

// The router of the routes.
pub(crate) fn routes(alloc: Global) -> Result<Router<Route>, InsertError>
    ensures ok { IfOk result (λ router. router ≡ the_rows) }
    ensures err { IsOkUnless result InsertError.OutOfMemory }
{
    let mut router = Router::new(alloc);
    router.insert("/callers/{caller}/requests/{number}", Route::Request)?;
    router.insert("/services/{service}", Route::Service)?;
    router.insert("/services/{service}/history", Route::History)?;
    router.insert("/services/{service}/runs/{run}", Route::Run)?;
    Ok(router)
}

// What this method and this target ask for, or the first of these that holds: `NoRoute` if the
// target, up to its first question mark, is no route or not UTF-8, `Method` if the method is not
// that of the route, `BadName` and `BadNumber` if a part is no name or no number.
pub(crate) fn asked_of(
    router: &Router<Route>,
    method: &[u8],
    target: &[u8],
) -> Result<Wanted, Rejection>
    requires { router.now ≡ the_rows }
    ensures { IsAsked method.now target.now result }
{
    let Some(parts) = parts_of(router, before(target, b'?')) else {
        return Err(Rejection::NoRoute);
    };
    let allowed = parts.allowed();
    if method != name_of_method(allowed).as_bytes() {
        return Err(Rejection::Method(allowed));
    }
    parts.read()
}

// The name of a method (RFC 9110).
fn name_of_method(method: Allowed) -> &'static str
    ensures { result.now ≡ method_name method }
{
    match method {
        Allowed::Put => "PUT",
        Allowed::Get => "GET",
    }
}

// The parts of a path that has a route.
fn parts_of<'a>(router: &Router<Route>, path: &'a [u8]) -> Option<PathParts<'a>>
    requires { router.now ≡ the_rows }
    ensures { MatchOption result (HasNoRoute path.now)
        (λ parts. IsPathOf path.now (target_of parts)) }
{
    let Ok(text) = str::from_utf8(path) else {
        return None;
    };
    match router.at(text) {
        Ok(found) => split(*found.value, path),
        Err(_) => None,
    }
}

// The parts of a path, each as its bytes.
#[derive(Clone, Copy)]
pub(crate) enum PathParts<'a> {
    Request(&'a [u8], &'a [u8]),
    Service(&'a [u8]),
    History(&'a [u8]),
    Run(&'a [u8], &'a [u8]),
}

impl PathParts<'_> {
    // The method of the route.
    fn allowed(self) -> Allowed
        ensures { result ≡ allowed_on (target_of self.entry) }
    {
        match self {
            PathParts::Request(..) => Allowed::Put,
            PathParts::Service(_) => Allowed::Get,
            PathParts::History(_) => Allowed::Get,
            PathParts::Run(..) => Allowed::Get,
        }
    }

    // What they say, or `BadName` before `BadNumber`.
    fn read(self) -> Result<Wanted, Rejection>
        ensures { IsTargetRead (target_of self.entry) result }
    {
        match self {
            PathParts::Request(caller, number) => {
                let caller = name_of(caller)?;
                let number = Number::read(number).ok_or(Rejection::BadNumber)?;
                Ok(Wanted::Request(Address { caller, number }))
            }
            PathParts::Service(name) => Ok(Wanted::Query(Query::Service(name_of(name)?))),
            PathParts::History(name) => Ok(Wanted::Query(Query::History(name_of(name)?))),
            PathParts::Run(name, number) => {
                let name = name_of(name)?;
                let number = Number::read(number).ok_or(Rejection::BadNumber)?;
                Ok(Wanted::Query(Query::Run(name, number)))
            }
        }
    }
}

// The name of a caller or a service in a path, or `BadName`.
fn name_of(bytes: &[u8]) -> Result<Name, Rejection>
    ensures ok { IfOk result (λ name. (name ≡ bytes.now) × IsTrue (is_name name)) }
    ensures err { IfErr result (λ rejection. (rejection ≡ Rejection.BadName)
        × ¬ (IsTrue (is_name bytes.now))) }
{
    Name::read(bytes).ok_or(Rejection::BadName)
}

// The parts of a path, if this route is its only one.
fn split(route: Route, path: &[u8]) -> Option<PathParts<'_>>
    ensures { MatchOption result ((t : Target) → route ≡ route_to t → ¬ (IsSplit path.now t))
        (λ parts. IsSplit path.now (target_of parts)) }
{
    match route {
        Route::Request => split_request(path),
        Route::Service => split_service(path),
        Route::History => split_history(path),
        Route::Run => split_run(path),
    }
}

// The caller and the number in the path of a request; none if it is another path.
fn split_request(path: &[u8]) -> Option<PathParts<'_>>
    ensures { MatchOption result
        ((caller number : List ℕ) → ¬ (IsSplit path.now (request caller number)))
        (λ parts. IsSplit path.now (target_of parts)) }
{
    let (caller, rest) = part_behind(path, b"/callers/")?;
    let number = last_part(rest, b"/requests/")?;
    Some(PathParts::Request(caller, number))
}

// The name in the path of a service; none if it is another path.
fn split_service(path: &[u8]) -> Option<PathParts<'_>>
    ensures { MatchOption result ((name : List ℕ) → ¬ (IsSplit path.now (service name)))
        (λ parts. IsSplit path.now (target_of parts)) }
{
    let name = last_part(path, b"/services/")?;
    Some(PathParts::Service(name))
}

// The name in the path of a history; none if it is another path.
fn split_history(path: &[u8]) -> Option<PathParts<'_>>
    ensures { MatchOption result ((name : List ℕ) → ¬ (IsSplit path.now (history name)))
        (λ parts. IsSplit path.now (target_of parts)) }
{
    let (name, rest) = part_behind(path, b"/services/")?;
    if rest == b"/history".as_slice() {
        Some(PathParts::History(name))
    } else {
        None
    }
}

// Whether a target is that of a history.
pub(crate) fn is_history(target: &[u8]) -> bool
    ensures { (name : List ℕ) → IsSplit (path_of target.now) (history name) → IsTrue result }
{
    match split_history(before(target, b'?')) {
        Some(_) => true,
        None => false,
    }
}

// The name and the number in the path of a run; none if it is another path.
fn split_run(path: &[u8]) -> Option<PathParts<'_>>
    ensures { MatchOption result
        ((name number : List ℕ) → ¬ (IsSplit path.now (run name number)))
        (λ parts. IsSplit path.now (target_of parts)) }
{
    let (name, rest) = part_behind(path, b"/services/")?;
    let number = last_part(rest, b"/runs/")?;
    Some(PathParts::Run(name, number))
}

// The part that stands after that front, up to the next slash, and what stands after it.
fn part_behind<'a>(path: &'a [u8], front: &[u8]) -> Option<(&'a [u8], &'a [u8])>
    ensures parts { MatchOption result
        ((part rest : List ℕ) → ¬ (StandsBehind path.now front.now part rest))
        (λ parts. StandsBehind path.now front.now parts.0.now parts.1.now) }
    ensures only { IfSome result (λ parts. (part rest : List ℕ)
        → StandsBehind path.now front.now part rest
        → (part ≡ parts.0.now) × (rest ≡ parts.1.now)) }
{
    let behind = behind(path, front)?;
    let (part, rest) = behind.split_at(before(behind, b'/').len());
    if is_part(part) {
        Some((part, rest))
    } else {
        None
    }
}

// The part that stands after that front, and is the last.
fn last_part<'a>(path: &'a [u8], front: &[u8]) -> Option<&'a [u8]>
    ensures { MatchOption result
        ((part : List ℕ) → IsPart part → path.now ≢ front.now ++ part)
        (λ part. IsPart part.now × (path.now ≡ front.now ++ part.now)) }
{
    let part = behind(path, front)?;
    if is_part(part) { Some(part) } else { None }
}

// What stands after that front.
fn behind<'a>(text: &'a [u8], front: &[u8]) -> Option<&'a [u8]>
    ensures { MatchOption result ((rest : List ℕ) → text.now ≢ front.now ++ rest)
        (λ rest. text.now ≡ front.now ++ rest.now) }
{
    text.strip_prefix(front)
}

// What stands before the first of these bytes.
fn before(text: &[u8], byte: u8) -> &[u8]
    ensures { result.now ≡ before_first (λ b. b == byte) text.now }
{
    match place_of(text, byte) {
        Some(at) => &text[..at],
        None => text,
    }
}

// The index of the first byte that is this one, if there is one.
fn place_of(text: &[u8], byte: u8) -> Option<usize>
    ensures { result ≡ position (λ b. b == byte) text.now }
{
    text.iter().position(|b| *b == byte)
}

// Whether these bytes are some, and none of them is a slash.
fn is_part(bytes: &[u8]) -> bool
    ensures { IsTrue result ↔ IsPart bytes.now }
{
    !bytes.is_empty() && !bytes.contains(&b'/')
}
