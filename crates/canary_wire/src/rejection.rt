//! Why a message is turned away before the register is asked.
ghost use Rattle.std.specs.Prelude.{◌≡◌, ◌≤◌, length};
ghost use Rattle.canary_wire.specs.declared.reply.Response.TheVariants as response;
ghost use Rattle.canary_wire.specs.ReplyTexts.{allow_line, rejection_status, rejection_body};

use http::StatusCode;

// The only method of a route.
#[derive(Clone, Copy)]
pub(crate) enum Allowed {
    Put,
    Get,
}

// Why a message is rejected before the register is asked.
#[derive(Clone, Copy)]
pub(crate) enum Rejection {
    // No head of a request, or a `Content-Length` twice or that is no number.
    Malformed,
    // A body whose length is not given by a `Content-Length` alone.
    Length,
    // A body that is longer than the limit.
    TooLong,
    // A target that is no route.
    NoRoute,
    // Another method than the one that the route has.
    Method(Allowed),
    // A caller or a service that is no name.
    BadName,
    // A number that is not one of a request or of a run.
    BadNumber,
    // A command that asks for what the desk does not do.
    Unsupported,
    // A body that is no command.
    Unreadable,
}

impl Rejection {
    // Its status of HTTP (RFC 9110).
    pub(crate) fn status(self) -> StatusCode
        ensures { result ≡ rejection_status self }
    {
        match self {
            Rejection::NoRoute => StatusCode::NOT_FOUND,
            Rejection::Method(_) => StatusCode::METHOD_NOT_ALLOWED,
            Rejection::Length => StatusCode::LENGTH_REQUIRED,
            Rejection::TooLong => StatusCode::PAYLOAD_TOO_LARGE,
            _ => StatusCode::BAD_REQUEST,
        }
    }

    // Its body of JSON.
    pub(crate) fn body(self) -> &'static str
        ensures { result.now ≡ rejection_body self }
    {
        match self {
            Rejection::Malformed => "{\"code\":\"malformed\"}",
            Rejection::Length => "{\"code\":\"length\"}",
            Rejection::TooLong => "{\"code\":\"too-long\"}",
            Rejection::NoRoute => "{\"code\":\"no-route\"}",
            Rejection::Method(_) => "{\"code\":\"method\"}",
            Rejection::BadName => "{\"code\":\"bad-name\"}",
            Rejection::BadNumber => "{\"code\":\"bad-number\"}",
            Rejection::Unsupported => "{\"code\":\"unsupported\"}",
            Rejection::Unreadable => "{\"code\":\"unreadable\"}",
        }
    }

    // The field line of its reply that names the method of the route, or none.
    pub(crate) fn allow_line(self) -> &'static str
        ensures is { result.now ≡ allow_line (response.Rejected self) }
        ensures short { length result.now ≤ 12 }
    {
        match self {
            Rejection::Method(Allowed::Put) => "Allow: PUT\r\n",
            Rejection::Method(Allowed::Get) => "Allow: GET\r\n",
            _ => "",
        }
    }
}
