// A project: at most 24 units, each a name, the names that it imports and a source. Put and remove change one unit and say
// by number why they refuse; memory is reserved at opening, so that they refuse for no other reason. The check of a project
// gives the link order, or the import that is missing, or a unit of a circle.
#![tactic(auto)]

pub mod check;
pub mod links;
pub mod methods;
pub mod unit;
pub mod whole;

pub use links::Links;
pub use unit::Unit;
pub use whole::Project;
