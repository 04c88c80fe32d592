// The word `show`: what an image or an artifact holds, as a link map.
use crate::{files, instructions, print, usage};
use anyhow::anyhow;
use artifact::Artifact;
use image::Image;
use names::Refusal;
use product::{Interface, Product};

pub fn run(rt: &HostRuntime, args: &[String]) -> anyhow::Result<()> {
    match args {
        [path] => either(rt, path.as_str()),
        [first, second] => chosen(rt, first.as_str(), second.as_str()),
        _ => wrong(rt),
    }
}

fn wrong(rt: &HostRuntime) -> anyhow::Result<()> {
    usage::print(rt)?;
    Err(anyhow!("show takes a file, and --image or --artifact where one is chosen"))
}

// The flag may stand before or behind the file.
fn chosen(rt: &HostRuntime, first: &str, second: &str) -> anyhow::Result<()> {
    match (first, second) {
        ("--image", path) | (path, "--image") => image(rt, path),
        ("--artifact", path) | (path, "--artifact") => artifact(rt, path),
        _ => wrong(rt),
    }
}

// Why a file is not what it was taken for.
fn tell(rt: &HostRuntime, path: &str, refusal: Refusal) -> anyhow::Result<()> {
    println!(rt; "{path}: {refusal}: {}", refusal.remedy())?;
    Ok(())
}

// First as an image, then as an artifact.
fn either(rt: &HostRuntime, path: &str) -> anyhow::Result<()> {
    let bytes = files::bytes(rt, path)?;
    let mut found = Image::open(rt.alloc())?;
    let mut record = Artifact::open(rt.alloc())?;
    match found.read(bytes.as_slice()) {
        Ok(_) => map(rt, &found),
        Err(no_image) => match record.read(bytes.as_slice()) {
            Ok(_) => parts(rt, &record),
            Err(no_artifact) => {
                tell(rt, path, no_image)?;
                tell(rt, path, no_artifact)?;
                Err(anyhow!("neither an image nor an artifact"))
            }
        },
    }
}

// A file that is not what it was taken for.
fn none(rt: &HostRuntime, path: &str, refusal: Refusal, what: &'static str) -> anyhow::Result<()> {
    tell(rt, path, refusal)?;
    Err(anyhow!("{what}"))
}

// Kept beside the next, which differs in the type: a trait for the two would be longer than both.
fn image(rt: &HostRuntime, path: &str) -> anyhow::Result<()> {
    let bytes = files::bytes(rt, path)?;
    let mut found = Image::open(rt.alloc())?;
    match found.read(bytes.as_slice()) {
        Ok(_) => map(rt, &found),
        Err(refusal) => none(rt, path, refusal, "no image"),
    }
}

fn artifact(rt: &HostRuntime, path: &str) -> anyhow::Result<()> {
    let bytes = files::bytes(rt, path)?;
    let mut record = Artifact::open(rt.alloc())?;
    match record.read(bytes.as_slice()) {
        Ok(_) => parts(rt, &record),
        Err(refusal) => none(rt, path, refusal, "no artifact"),
    }
}

// The link map: units with their code, then entries, then references.
fn map(rt: &HostRuntime, found: &Image) -> anyhow::Result<()> {
    println!(rt;
        "image of {} units, {} bytes",
        found.names().len(),
        found.size()
    )?;
    for (unit, name) in found.names().iter().enumerate() {
        let code = found.code(unit);
        println!(rt; "unit {name}, {} bytes of code", code.len())?;
        hex(rt, code)?;
        instructions::print(rt, code)?;
    }
    for (unit, name) in found.names().iter().enumerate() {
        for place in found.entries(unit) {
            println!(rt; "entry {name} {place}")?;
        }
    }
    for (unit, name) in found.names().iter().enumerate() {
        for target in found.references(unit) {
            match found.names().get(usize::from(target.unit)) {
                Some(there) => println!(rt; "reference {name} {there} {}", target.entry)?,
                None => println!(rt; "reference {name} to no unit")?,
            }
        }
    }
    Ok(())
}

// The bytes in hexadecimal on a line of their own, if there are any.
fn hex(rt: &HostRuntime, code: &[u8]) -> anyhow::Result<()> {
    if code.is_empty() {
        return Ok(());
    }
    print!(rt; "  ")?;
    print::hex(rt, code)
}

// The parts of an artifact: source, interfaces of the imports, product.
fn parts(rt: &HostRuntime, record: &Artifact) -> anyhow::Result<()> {
    let source = record.source.as_slice();
    let imports = record.imports();
    println!(rt;
        "artifact, source of {} bytes, {} imports",
        source.len(),
        imports.len()
    )?;
    text(rt, source)?;
    for (position, interface) in (1..usize::MAX).zip(imports.iter()) {
        imported(rt, position, interface)?;
    }
    product(rt, &record.product)
}

// The source, its lines numbered; a byte that is no plain character is shown as a point.
fn text(rt: &HostRuntime, source: &[u8]) -> anyhow::Result<()> {
    let whole = source.strip_suffix(b"\n").unwrap_or(source);
    if source.is_empty() {
        return Ok(());
    }
    for (number, line) in (1..usize::MAX).zip(whole.split(|b| *b == b'\n')) {
        print!(rt; "{number:4} | ")?;
        for b in line {
            print!(rt; "{}", character(*b))?;
        }
        println!(rt; "")?;
    }
    Ok(())
}

fn character(b: u8) -> char {
    match b {
        32..=126 => char::from(b),
        _ => '.',
    }
}

fn imported(rt: &HostRuntime, position: usize, interface: &Interface) -> anyhow::Result<()> {
    println!(rt; "import {position} of {} rows", interface.rows().len())?;
    for row in interface.rows() {
        println!(rt; "import {position} row {row}")?;
    }
    Ok(())
}

fn product(rt: &HostRuntime, product: &Product) -> anyhow::Result<()> {
    print::rows(rt, product.interface.rows())?;
    let code = product.code.as_slice();
    println!(rt; "code of {} bytes", code.len())?;
    hex(rt, code)?;
    instructions::print(rt, code)?;
    print::places(rt, product)
}
