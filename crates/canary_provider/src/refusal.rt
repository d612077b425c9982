//! Why a provider of a plan is not asked.

/// Why a provider of a plan is not asked.
#[derive(Clone, Copy)]
pub enum ProviderRefusal {
    /// It is neither Prometheus nor a service that answers in JSON.
    Kind,
    /// The plan has no object for it.
    Provider,
    /// A member that Argo's Prometheus or web metric does not have.
    Prometheus,
    Web,
    /// `authentication`, `insecure: true`, `rangeQuery`.
    Authentication,
    Insecure,
    RangeQuery,
    /// An address that begins with `https:`, and one that is invalid.
    Https,
    Address,
    /// No query, or one that is no text.
    Query,
    /// A time that is no whole number of seconds, 0 or more.
    Seconds,
    /// Headers that are no list of objects with `key` and `value`, a key that is no name of a
    /// header, a value with a control, and a header that each message has already.
    Headers,
    HeaderName,
    HeaderValue,
    OwnHeader,
    /// A method other than GET, POST or PUT.
    Method,
    /// A body that is no text, one beside a `jsonBody`, and one of a GET.
    Body,
    TwoBodies,
    BodyOfGet,
    /// A `jsonPath` of another form.
    Path,
}

impl ProviderRefusal {
    /// What it is, and what to write.
    pub fn text(self) -> &'static str {
        match self {
            ProviderRefusal::Kind => {
                "this provider is not asked: let a program of your own ask it, and give what it \
                 measures to canary agent --values -, in lines SERVICE METRIC VALUE"
            }
            ProviderRefusal::Provider => "expected an object with the one provider",
            ProviderRefusal::Prometheus => {
                "a member that is not known: known are address, query, timeout and headers"
            }
            ProviderRefusal::Web => {
                "a member that is not known: known are url, method, headers, body, jsonBody, \
                 timeoutSeconds and jsonPath"
            }
            ProviderRefusal::Authentication => {
                "authentication is not done: write a header, or the address of a proxy on this \
                 machine that does it"
            }
            ProviderRefusal::Insecure => {
                "insecure is for https, which is not asked: write the http address of a proxy on \
                 this machine"
            }
            ProviderRefusal::RangeQuery => {
                "rangeQuery is not asked: write a query whose values at one moment say it"
            }
            ProviderRefusal::Https => {
                "https is not asked: write the http address of a proxy on this machine that asks \
                 by https"
            }
            ProviderRefusal::Address => {
                "expected http://HOST, http://HOST:PORT, or one with a path behind it"
            }
            ProviderRefusal::Query => "expected a query, a text",
            ProviderRefusal::Seconds => "expected a whole number of seconds, 0 or more",
            ProviderRefusal::Headers => "expected a list of objects with key and value",
            ProviderRefusal::HeaderName => "the key of a header is no name of a header",
            ProviderRefusal::HeaderValue =>
                "the value of a header has a control, as an end of a line",
            ProviderRefusal::OwnHeader => {
                "a header that the agent writes itself: leave it out (Host, Connection, \
                 Keep-Alive, Content-Length, Transfer-Encoding, Accept-Encoding, Expect, TE, \
                 Trailer, Upgrade)"
            }
            ProviderRefusal::Method => "expected GET, POST or PUT",
            ProviderRefusal::Body => "expected a body, a text",
            ProviderRefusal::TwoBodies => "body and jsonBody: write one of them",
            ProviderRefusal::BodyOfGet => "a GET has no body: write method: POST",
            ProviderRefusal::Path => {
                "expected a jsonPath of members and indices, as {$.data.items[0].value}; no \
                 filter, wildcard, union or slice is read"
            }
        }
    }
}
