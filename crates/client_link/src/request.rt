//! What the first bytes of a browser look like.

ghost use Rattle.std.specs.Prelude.{◌≡◌};
ghost use Rattle.client_link.specs.Requests.{look, either, look_all, methods};

/// Whether some bytes begin with a word.
#[derive(Clone, Copy, Debug, PartialEq, Eq)]
pub(crate) enum Look {
    /// They begin with the whole of it.
    Whole,
    /// They are a part of it, from its front.
    Part,
    /// They do not.
    Other,
}

impl Look {
    /// Of two looks at the same bytes the one that says more.
    fn or(self, other: Look) -> Look
        ensures { result ≡ either self other }
    {
        match self {
            Look::Whole => Look::Whole,
            Look::Other => other,
            Look::Part => match other {
                Look::Whole => Look::Whole,
                Look::Part | Look::Other => Look::Part,
            },
        }
    }
}

/// Whether the bytes begin with the word.
fn look_at(bytes: &[u8], word: &[u8]) -> Look
    ensures { result ≡ look bytes.now word.now }
{
    let mut rest = bytes;
    let mut left = word;
    while let Some((wanted, later)) = left.split_first() {
        let Some((byte, behind)) = rest.split_first() else {
            return Look::Part;
        };
        if *byte != *wanted {
            return Look::Other;
        }
        rest = behind;
        left = later;
    }
    Look::Whole
}

/// Whether the bytes begin with a method of HTTP and a space.
#[tactic(auto, unfolding(crate::specs::Requests::methods))]
pub(crate) fn look_for_request(bytes: &[u8]) -> Look
    ensures { result ≡ look_all bytes.now methods }
{
    let rare = look_at(bytes, b"PATCH ").or(look_at(bytes, b"CONNECT ").or(look_at(
        bytes, b"TRACE ",
    ).or(Look::Other)));
    let others = look_at(bytes, b"HEAD ").or(look_at(bytes, b"OPTIONS ").or(look_at(
        bytes, b"DELETE ",
    ).or(rare)));
    look_at(bytes, b"GET ").or(look_at(bytes, b"POST ").or(look_at(bytes, b"PUT ").or(others)))
}
