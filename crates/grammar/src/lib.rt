// The grammar of formula units: the first line is the word formula, every other is empty or one declaration.
// A unit's declarations are what the lines say one after the other, or the first line that is wrong, with the fault.
// One descent over expressions serves all that they come to. What they mean, and the faults of whole units, stand on it.
#![tactic(auto)]

pub mod declaration;
pub mod expression;
pub mod flaw;
pub mod line;
pub mod sense;
pub mod walk;

pub use declaration::{Declaration, Declared, Kind};
pub use expression::{check, descend};
pub use flaw::Flaw;
pub use line::{CONST, FORMULA, FUN, X, all_called, is_open, judge, spells};
pub use sense::Sense;
pub use walk::{declare, expression_of};
