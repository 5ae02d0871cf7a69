// The methods of requests.
ghost use Rattle.std.specs.Prelude.{◌≡◌};
ghost use Rattle.http_asks.specs.Meaning.{method_of};

/// The method of a request. Each resource serves some of the first four.
#[derive(Clone, Copy, Debug, PartialEq, Eq)]
pub(crate) enum Method {
    /// A resource is shown.
    Get,
    /// Something is made, put or set.
    Put,
    /// Something is started, completed, done or closed.
    Post,
    /// Something is removed, dropped or aborted.
    Delete,
    /// No resource serves it.
    Other,
}

impl Method {
    /// Reads a method; upper and lower case differ.
    #[tactic(auto, unfolding(crate::specs::Meaning::method_of))]
    pub(crate) fn read(text: &[u8]) -> Method
        ensures { result ≡ method_of text.now }
    {
        if text == b"GET".as_slice() {
            return Method::Get;
        }
        if text == b"PUT".as_slice() {
            return Method::Put;
        }
        if text == b"POST".as_slice() {
            return Method::Post;
        }
        if text == b"DELETE".as_slice() {
            return Method::Delete;
        }
        Method::Other
    }
}
