// What bytes are put into, one behind the other.
ghost use Rattle.std.specs.Prelude.{ℕ, List, [], ◌++◌};

pub trait Sink {
    // what the sink was, the bytes that were put into it, and what it is then
    ghost Takes: { Self → List ℕ → Self → Type 0 };

    // Puts bytes behind those that it has, where they have room.
    fn put(&mut self, bytes: &[u8])
        ensures { Takes self.old bytes.now self.new };

    // no bytes change nothing
    ghost none: { (s : Self) → Takes s [] s };

    // pieces one behind the other are one piece
    ghost both: { (s t u : Self) (a b : List ℕ) → Takes s a t → Takes t b u → Takes s (a ++ b) u };
}
