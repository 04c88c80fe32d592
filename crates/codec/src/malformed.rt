// What a reader answers where the bytes do not begin with what was to be read.
ghost use Rattle.std.specs.Prelude.{◌≡◌, is_ok};

use bounded::Full;
use names::Refusal;
use std::error::Error;
use std::fmt;

#[derive(Clone, Copy, Debug, PartialEq, Eq)]
pub struct Malformed;

impl Malformed {
    // Refused where a test failed.
    pub fn unless(passed: bool) -> Result<(), Malformed>
        ensures { is_ok result ≡ passed }
    {
        passed.then_some(()).ok_or(Malformed)
    }
}

impl fmt::Display for Malformed {
    fn fmt<W: fmt::Write>(&self, f: &mut fmt::Formatter<W>) -> fmt::Result {
        f.write_str("the bytes are of another form")
    }
}

impl Error for Malformed {}

// A name of another form.
impl From<Refusal> for Malformed {
    fn from(_refusal: Refusal) -> Malformed {
        Malformed
    }
}

// More elements than a list takes.
impl From<Full> for Malformed {
    fn from(_full: Full) -> Malformed {
        Malformed
    }
}
