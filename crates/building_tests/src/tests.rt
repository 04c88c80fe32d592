use building::{Halt, Mark, Stop, Workshop};
use formula::Formula;
use image::Image;
use linker::Assembler;
use names::Name;
use project::{Links, Project};
use slot::SlotStore;
use std::test::*;

const LIMITS: &[u8] = b"formula\nconst low = 3300\nconst full = 4200\n";

const CURVE: &[u8] = b"formula\nfun left = (/ (* (- x 1:low) 1000) (- 1:full 1:low))\n";

const GUARD: &[u8] = b"formula\nfun stop = (< x 1:low)\nfun spare = (2:left x)\n";

fn named(text: &[u8]) -> Result<Name, Fail> {
    Name::from_text(text).map_err(|_| Fail::new("no name"))
}

fn put(project: &mut Project, name: Name, imports: &[Name], source: &[u8]) -> Result<(), Fail> {
    project
        .put(name, imports, source)
        .map_err(|_| Fail::new("a unit was refused"))
}

// Three units, of which guard imports the others, and curve imports limits.
fn demo(rt: &HostRuntime) -> Result<Project, Fail> {
    let limits = named(b"limits")?;
    let curve = named(b"curve")?;
    let none: [Name; 0] = [];
    let mut project = Project::open(rt.alloc())?;
    put(&mut project, named(b"guard")?, &[limits, curve], GUARD)?;
    put(&mut project, limits, &none, LIMITS)?;
    put(&mut project, curve, &[limits], CURVE)?;
    Ok(project)
}

// A workshop with its translator and store, and the link order of a project.
#[derive(Drop)]
struct Bench {
    formula: Formula,
    store: SlotStore,
    links: Links,
    workshop: Workshop,
}

fn opened(rt: &HostRuntime) -> Result<Bench, Fail> {
    let formula = Formula::open(rt.alloc())?;
    let store = SlotStore::open(vec![in rt.alloc(); 0; 16384]?);
    let links = Links::open(rt.alloc())?;
    let workshop = Workshop::open(rt.alloc())?;
    Ok(Bench {
        formula,
        store,
        links,
        workshop,
    })
}

// Builds the project, or tells where the build ended, and why.
fn build(b: &mut Bench, project: &Project) -> Result<Result<(), Halt>, Fail> {
    b.links
        .check(project)
        .map_err(|_| Fail::new("the project cannot be linked"))?;
    let places = b.links.places();
    if places.len() > 24 {
        return Err(Fail::new("too many places"));
    }
    Ok(
        b.workshop
            .build(&mut b.formula, &mut b.store, project, places),
    )
}

#[test]
fn a_build_translates_what_changed_and_keeps_the_rest(rt: HostRuntime) -> Result<(), Fail> {
    let mut project = demo(&rt)?;
    let mut b = opened(&rt)?;
    assert!(rt; build(&mut b, &project)?.is_ok());
    assert_eq!(rt; b.workshop.marks(), [Mark::Translated; 3].as_slice());
    assert!(rt; build(&mut b, &project)?.is_ok());
    assert_eq!(rt; b.workshop.marks(), [Mark::Kept; 3].as_slice());
    let limits = named(b"limits")?;
    let shifted = b"formula\nfun left = (/ (* (- x 1:low) 999) (- 1:full 1:low))\n";
    put(&mut project, named(b"curve")?, &[limits], shifted)?;
    assert!(rt; build(&mut b, &project)?.is_ok());
    assert_eq!(rt;
        b.workshop.marks(),
        [Mark::Kept, Mark::Translated, Mark::Kept].as_slice()
    );
    Ok(())
}

#[test]
fn a_build_ends_at_the_first_fault(rt: HostRuntime) -> Result<(), Fail> {
    let mut project = demo(&rt)?;
    let mut b = opened(&rt)?;
    put(
        &mut project,
        named(b"curve")?,
        &[named(b"limits")?],
        b"formula\nfun left = (\n",
    )?;
    let halt = build(&mut b, &project)?.err().ok_or("no fault")?;
    assert_eq!(rt; halt.unit, named(b"curve")?);
    assert!(rt; matches!(halt.stop, Stop::Faulty(_)));
    assert_eq!(rt;
        b.workshop.marks(),
        [Mark::Translated, Mark::Failed].as_slice()
    );
    Ok(())
}

#[test]
fn what_was_built_is_linked(rt: HostRuntime) -> Result<(), Fail> {
    let project = demo(&rt)?;
    let mut b = opened(&rt)?;
    assert!(rt; build(&mut b, &project)?.is_ok());
    let mut image = Image::open(rt.alloc())?;
    let mut assembler = Assembler::open(rt.alloc())?;
    assert!(rt;
        assembler
            .assemble(&project, b.links.places(), b.workshop.done(), &mut image)
            .is_ok()
    );
    assert_eq!(rt; image.names().len(), 3);
    assert!(rt; image.names()[0] == named(b"limits")?);
    assert!(rt; image.names()[2] == named(b"guard")?);
    Ok(())
}
