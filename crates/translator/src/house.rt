// The house sameness: equally many rows, with equal names, kinds and values.
ghost use Rattle.std.specs.Prelude.{◌≡◌};
ghost use Rattle.translator.specs.House.{like, house};

use product::Row;

// kept beside the derived equality of rows: lines are left out
fn alike(a: &Row, b: &Row) -> bool
    ensures { result ≡ like a.now b.now }
{
    a.name == b.name && a.kind == b.kind && a.value == b.value
}

// Whether two interfaces are the same by the house rule; lines are not compared.
pub fn same_rows(a: &[Row], b: &[Row]) -> bool
    ensures { result ≡ house a.now b.now }
{
    a.len() == b.len() && a.iter().zip(b).all(|(x, y)| alike(x, y))
}
