// What the parts of an expression come to, on a state that they may write.
ghost use Rattle.std.specs.Prelude.{◌≡◌};
ghost use Rattle.grammar.specs.Expression.{Meaning};
ghost use Rattle.grammar.specs.Came.{came};

use names::Name;
use tokens::Operator;

pub trait Sense {
    type Value: Drop;

    type State;

    // what the meaning sees of a state
    ghost Seen: { Type 0 };

    ghost view: { Self.State → Seen };

    ghost means: { Self → Meaning Seen Self.Value };

    // A literal.
    fn number(&self, value: i32, state: &mut Self::State) -> Option<Self::Value>
        ensures { came result (view state.new) ≡ (means self.now).number value (view state.old) };

    // A name that is not called.
    fn named(&self, name: &Name, state: &mut Self::State) -> Option<Self::Value>
        ensures { came result (view state.new) ≡ (means self.now).named name.now (view state.old) };

    // An import word that is not called.
    fn word(&self, position: u8, name: &Name, state: &mut Self::State) -> Option<Self::Value>
        ensures { came result (view state.new) ≡ (means self.now).word position name.now (view state.old) };

    // An operator behind its operands.
    fn operation(
        &self,
        operator: Operator,
        a: Self::Value,
        b: Self::Value,
        state: &mut Self::State,
    ) -> Option<Self::Value>
        ensures { came result (view state.new) ≡ (means self.now).operation operator a b (view state.old) };

    // A call of a name behind its operand.
    fn call(&self, name: &Name, a: Self::Value, state: &mut Self::State) -> Option<Self::Value>
        ensures { came result (view state.new) ≡ (means self.now).call name.now a (view state.old) };

    // A call of an import word behind its operand.
    fn call_word(
        &self,
        position: u8,
        name: &Name,
        a: Self::Value,
        state: &mut Self::State,
    ) -> Option<Self::Value>
        ensures { came result (view state.new) ≡ (means self.now).call_word position name.now a (view state.old) };
}
