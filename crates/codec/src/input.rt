// What is left to read.
ghost use Rattle.std.specs.Prelude.{◌≡◌, ◌==◌, length, drop, is_ok, if◌then◌else◌};
ghost use Rattle.codec.specs.Format.{left, read_as, begins, first};

use crate::malformed::Malformed;

#[derive(Drop)]
pub struct Input<'a> {
    pub rest: &'a [u8],
}

impl Input<'_> {
    // The first so many bytes.
    pub(crate) fn bytes<const N: usize>(&mut self) -> Result<[u8; N], Malformed>
        ensures { read_as result (left self.new) ≡ first N (left self.old) }
    {
        let (bytes, rest) = self.rest.split_first_chunk::<N>().ok_or(Malformed)?;
        self.rest = rest;
        Ok(*bytes)
    }

    // Refused where something is left.
    pub fn end(&self) -> Result<(), Malformed>
        ensures { is_ok result ≡ (length (left self.now) == 0) }
    {
        Malformed::unless(self.rest.is_empty())
    }

    // Takes a byte where it stands first in what is left.
    pub fn skip(&mut self, b: u8) -> Result<(), Malformed>
        ensures found { is_ok result ≡ begins b (left self.old) }
        ensures after { left self.new ≡ (if is_ok result then drop 1 (left self.old) else left self.old) }
    {
        self.rest = self.rest.strip_prefix(&[b]).ok_or(Malformed)?;
        Ok(())
    }
}
