// What is written behind a product, if there is room.
// Opcodes are bare bytes: they are of the format, and who writes code needs nothing of who names it for show.
ghost use Rattle.std.specs.Prelude.{◌≡◌, is_ok};
ghost use Rattle.product.specs.Parts.{parts};
ghost use Rattle.emission.specs.Wrote.{done, adding, referring, entering, showing_row, opcode, pushing, calling};

use bounded::Full;
use product::{Product, Reference, Row};
use tokens::Operator;

pub fn add(bytes: &[u8], out: &mut Product) -> Result<(), Full>
    ensures { done (is_ok result) (parts out.new) ≡ adding bytes.now (parts out.old) }
{
    out.code.extend(bytes)
}

pub fn refer(reference: Reference, out: &mut Product) -> Result<(), Full>
    ensures { done (is_ok result) (parts out.new) ≡ referring reference (parts out.old) }
{
    out.references.push(reference)
}

pub fn enter(out: &mut Product) -> Result<(), Full>
    ensures { done (is_ok result) (parts out.new) ≡ entering (parts out.old) }
{
    // kept as `as`: the code is short, and no `From` leads from a usize to a u16
    let place = out.code.len() as u16;
    out.entries.push(place)
}

pub fn show(row: Row, out: &mut Product) -> Result<(), Full>
    ensures { done (is_ok result) (parts out.new) ≡ showing_row row (parts out.old) }
{
    out.interface.push(row).map_err(|_| Full)
}

pub fn push(value: i32, out: &mut Product) -> Result<(), Full>
    ensures { done (is_ok result) (parts out.new) ≡ pushing value (parts out.old) }
{
    let [a, b, c, d] = value.to_be_bytes();
    add(&[1, a, b, c, d], out)
}

pub fn opcode_of(operator: Operator) -> u8
    ensures { result ≡ opcode operator }
{
    match operator {
        Operator::Add => 0x10,
        Operator::Subtract => 0x11,
        Operator::Multiply => 0x12,
        Operator::Divide => 0x13,
        Operator::Less => 0x14,
        Operator::Equal => 0x15,
    }
}

pub fn call(reference: Reference, out: &mut Product) -> Result<(), Full>
    ensures { done (is_ok result) (parts out.new) ≡ calling reference (parts out.old) }
{
    // kept as `as`: the references are few, and no `From` leads from a usize to a u8
    let number = out.references.len() as u8;
    add(&[0x30, number], out)?;
    refer(reference, out)
}
