// What a unit sees of its imports.
ghost use Rattle.std.specs.Prelude.{◌≡◌, map};
ghost use Rattle.product.specs.Parts.{rows};
ghost use Rattle.scope.specs.Uses.{row_at, as_constant, as_function};

use grammar::Kind;
use names::Name;
use product::{Interface, Row};

fn row_at(imports: &[Interface], position: u8, name: Name) -> Option<Row>
    ensures { result ≡ row_at (map rows imports.now) position name.bytes }
{
    let place = usize::from(position).checked_sub(1)?;
    imports.get(place)?.find(name)
}

// The constant of that name in the import at a position.
pub fn constant_at(imports: &[Interface], position: u8, name: Name) -> Option<i32>
    ensures { result ≡ as_constant (row_at (map rows imports.now) position name.bytes) }
{
    let row = row_at(imports, position, name)?;
    // the discriminant of a kind, since rows of any language have numbers
    (row.kind == Kind::Constant as u8).then_some(row.value)
}

// The entry number of the function of that name in the import at a position.
pub fn function_at(imports: &[Interface], position: u8, name: Name) -> Option<u8>
    ensures { result ≡ as_function (row_at (map rows imports.now) position name.bytes) }
{
    let row = row_at(imports, position, name)?;
    // the discriminant of a kind, as above
    if row.kind != Kind::Function as u8 {
        return None;
    }
    u8::try_from(row.value).ok().filter(|entry| *entry <= 11)
}
