// A buffer as what bytes are put into: they come to a place in it, and those behind stay.
ghost use Rattle.std.specs.Prelude.{◌≡◌, refl};
ghost use Rattle.std.proofs.Common.{◌∙◌};
ghost use Rattle.codec.specs.Adding.{Lays};
ghost use Rattle.codec.specs.Pieces.{lays_none, lays_both};

use crate::sink::Sink;

// A buffer, and the place in it that the next byte comes to.
// Kept as a place: the bytes before it are told of by `Takes`, and the rest of the buffer alone would say nothing of them.
#[derive(Drop)]
pub struct Buffer<'a> {
    pub bytes: &'a mut [u8],
    pub at: usize,
}

impl Sink for Buffer<'_> {
    ghost Takes = { λ s bytes t. (t.bytes.ghost_name ≡ s.bytes.ghost_name) × Lays s.at bytes s.bytes.now t.bytes.now t.at };

    ghost none = { λ s. (refl, lays_none s.at s.bytes.now) };

    ghost both = { λ s t u a b f g. (g.0 ∙ f.0, lays_both s.at a b s.bytes.now t.bytes.now u.bytes.now t.at u.at f.1 g.1) };

    fn put(&mut self, bytes: &[u8]) {
        let end = self.at.saturating_add(bytes.len());
        if end > self.bytes.len() {
            return;
        }
        self.bytes[self.at..end].copy_from_slice(bytes);
        self.at = end;
    }
}
