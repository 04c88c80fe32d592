// A list of bytes as what bytes are put into: they come to its end.
ghost use Rattle.bounded.specs.Held.{held};
ghost use Rattle.codec.specs.Adding.{Adds};
ghost use Rattle.codec.specs.Pieces.{adds_none, adds_both};

use crate::sink::Sink;
use bounded::Bounded;

impl<const N: usize> Sink for Bounded<u8, N> {
    ghost Takes = { λ s bytes t. Adds N (held s) bytes (held t) };

    ghost none = { λ s. adds_none N (held s) };

    ghost both = { λ s t u a b f g. adds_both N (held s) a (held t) b (held u) f g };

    fn put(&mut self, bytes: &[u8]) {
        let _ = self.extend(bytes);
    }
}
