ghost use Rattle.std.specs.Prelude.{◌≡◌, true, [], ◌∷◌};
ghost use Rattle.names.specs.Spelling.{padded_name};

// A name: its eight bytes, with zero bytes behind the letters and digits. Names are ordered by these bytes.
#[derive(Clone, Copy, Debug, PartialEq, Eq, PartialOrd, Ord)]
pub struct Name {
    pub(crate) bytes: [u8; 8],
    ghost valid: { padded_name bytes ≡ true },
}

impl Name {
    // The smallest name, `a`.
    pub fn least() -> Name
        ensures { result.bytes ≡ 97 ∷ 0 ∷ 0 ∷ 0 ∷ 0 ∷ 0 ∷ 0 ∷ 0 ∷ [] }
    {
        Name {
            bytes: *b"a\0\0\0\0\0\0\0",
        }
    }

    // The eight bytes.
    pub fn bytes(&self) -> [u8; 8]
        ensures { result ≡ self.now.bytes }
    {
        self.bytes
    }
}
