// What artifacts and products have in common when they are shown.
use product::{Product, Row};

// Bytes in hexadecimal, and the end of the line.
pub fn hex(rt: &HostRuntime, bytes: &[u8]) -> anyhow::Result<()> {
    for b in bytes {
        print!(rt; "{b:02X}")?;
    }
    println!(rt; "")?;
    Ok(())
}

// Rows, one a line.
pub fn rows(rt: &HostRuntime, rows: &[Row]) -> anyhow::Result<()> {
    for row in rows {
        println!(rt; "row {row}")?;
    }
    Ok(())
}

// The entries and the references of a product, one a line.
pub fn places(rt: &HostRuntime, product: &Product) -> anyhow::Result<()> {
    for place in product.entries.as_slice() {
        println!(rt; "entry {place}")?;
    }
    for reference in product.references.as_slice() {
        println!(rt; "reference {reference}")?;
    }
    Ok(())
}
