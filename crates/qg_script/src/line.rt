// A line as its bytes.
ghost use Rattle.std.specs.Prelude.{◌≡◌};

/// A line of a script, without its newline, as the feed that holds it lends it (this project's own).
#[derive(Drop)]
pub struct Line<'a> {
    bytes: &'a [u8],
}

impl<'a> Line<'a> {
    ghost use Rattle.qg_script.specs.LineBytes.{line_bytes};

    /// The line of these bytes.
    pub(crate) fn new(bytes: &'a [u8]) -> Line<'a>
        ensures { line_bytes result ≡ bytes.now }
    {
        Line { bytes }
    }

    /// Its bytes.
    pub fn as_slice(&self) -> &'a [u8]
        ensures { result.now ≡ line_bytes self.now }
    {
        self.bytes
    }
}
