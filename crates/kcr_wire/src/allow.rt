//! The methods that a path takes.
ghost use Rattle.std.specs.Prelude.{◌≡◌, ◌≤◌, length};
ghost use Rattle.kcr_wire.specs.Endpoints.{allow_text};

/// The methods that a path takes: those of an inquiry, of both an inquiry and a command, or of a
/// command.
#[derive(Clone, Copy)]
pub enum Allow {
    GetHead,
    GetHeadPost,
    Post,
}

impl Allow {
    /// The value of the field `allow` of an answer 405 (RFC 9110 section 10.2.1), of at most 15 bytes.
    pub fn text(self) -> &'static str
        ensures value { result.now ≡ allow_text self }
        ensures short { length result.now ≤ 15 }
    {
        match self {
            Allow::GetHead => "GET, HEAD",
            Allow::Post => "POST",
            Allow::GetHeadPost => "GET, HEAD, POST",
        }
    }
}
