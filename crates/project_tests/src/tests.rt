use names::{Name, Refusal};
use project::{Links, Project};
use std::fmt::Write;
use std::test::*;

fn named(text: &[u8]) -> Result<Name, Fail> {
    Name::from_text(text).map_err(|_| Fail::new("no name"))
}

fn refused(text: &[u8]) -> bool {
    Name::from_text(text).is_err_and(|refusal| refusal == Refusal::NotAName)
}

// Puts a unit that a line names: its name, then its imports. Answers the refusal, if it is refused.
fn put(
    rt: &HostRuntime,
    project: &mut Project,
    line: &str,
    source: &[u8],
) -> Result<Option<Refusal>, Fail> {
    let mut imports = Vec::new(rt.alloc());
    let names = (1..line.len()).map_while(|place| words::word(line.as_bytes(), place));
    for word in names {
        imports.push(named(word)?)?;
    }
    let word = words::word(line.as_bytes(), 0).ok_or("no unit")?;
    let put = project.put(named(word)?, imports.as_slice(), source);
    Ok(put.err())
}

// The link order of a project, one unit a line, in words.
fn order(rt: &HostRuntime, lines: &str) -> Result<String, Fail> {
    let mut project = Project::open(rt.alloc())?;
    for line in lines.lines() {
        if put(rt, &mut project, line, b"")?.is_some() {
            return Err(Fail::new("a unit was refused"));
        }
    }
    linked(rt, &project)
}

fn linked(rt: &HostRuntime, project: &Project) -> Result<String, Fail> {
    let mut links = Links::open(rt.alloc())?;
    let mut text = String::new(rt.alloc());
    match links.check(project) {
        Ok(_) => {
            for place in links.places() {
                if let Some(name) = project.name(*place) {
                    write!(text, "{name} ")?;
                }
            }
        }
        Err(refusal) => write!(text, "{refusal}")?,
    }
    Ok(text)
}

#[test]
fn names_have_one_to_eight_letters_or_digits(rt: HostRuntime) -> Result<(), Fail> {
    assert!(rt; Name::from_text(b"a").is_ok());
    assert!(rt; Name::from_text(b"abcdefg8").is_ok());
    assert!(rt; refused(b"abcdefghi"));
    assert!(rt; refused(b"8a"));
    assert!(rt; refused(b""));
    assert!(rt; refused(b"a\0b"));
    assert!(rt; refused(b"a\0"));
    assert!(rt; refused(b"aB"));
    Ok(())
}

#[test]
fn padded_names_have_zeros_behind_only(rt: HostRuntime) -> Result<(), Fail> {
    assert!(rt; Name::from_padded(*b"lim\0\0\0\0\0").is_ok());
    assert!(rt; Name::from_padded(*b"lim\0a\0\0\0").is_err());
    assert!(rt; Name::from_padded(*b"\0\0\0\0\0\0\0\0").is_err());
    Ok(())
}

#[test]
fn smallest_ready_unit_comes_next(rt: HostRuntime) -> Result<(), Fail> {
    assert_eq!(rt; order(&rt, "c\na b\nb")?.as_str(), "b a c ");
    Ok(())
}

#[test]
fn circles_are_refused_at_the_smallest_unit_left(rt: HostRuntime) -> Result<(), Fail> {
    assert_eq!(rt; order(&rt, "a b\nb c\nc b")?.as_str(), "refused 22 unit a");
    assert_eq!(rt; order(&rt, "a a")?.as_str(), "refused 22 unit a");
    Ok(())
}

#[test]
fn missing_imports_go_before_circles(rt: HostRuntime) -> Result<(), Fail> {
    assert_eq!(rt;
        order(&rt, "c nope\nb c gone\na b\nc c")?.as_str(),
        "refused 21 unit b position 2"
    );
    assert_eq!(rt;
        order(&rt, "b gone\na a")?.as_str(),
        "refused 21 unit b position 1"
    );
    Ok(())
}

#[test]
fn repeated_imports_are_one_need(rt: HostRuntime) -> Result<(), Fail> {
    assert_eq!(rt; order(&rt, "a b b b b\nb")?.as_str(), "b a ");
    assert_eq!(rt; order(&rt, "")?.as_str(), "");
    Ok(())
}

#[test]
fn put_refuses_in_order(rt: HostRuntime) -> Result<(), Fail> {
    let mut project = Project::open(rt.alloc())?;
    assert_eq!(rt; put(&rt, &mut project, "a", &[0; 512])?, None);
    assert_eq!(rt;
        put(&rt, &mut project, "a", &[0; 513])?,
        Some(Refusal::SourceTooLong)
    );
    assert_eq!(rt;
        put(&rt, &mut project, "a b c d e f", &[0; 513])?,
        Some(Refusal::SourceTooLong)
    );
    assert_eq!(rt;
        put(&rt, &mut project, "a b c d e f", &[0; 512])?,
        Some(Refusal::TooManyImports)
    );
    assert_eq!(rt; put(&rt, &mut project, "a b c d e", &[0; 512])?, None);
    Ok(())
}

#[test]
fn a_project_has_24_units(rt: HostRuntime) -> Result<(), Fail> {
    let mut project = Project::open(rt.alloc())?;
    for i in 0..24u8 {
        let text = format!(in rt.alloc(); "u{i}")?;
        assert_eq!(rt; put(&rt, &mut project, text.as_str(), b"")?, None);
    }
    assert_eq!(rt;
        put(&rt, &mut project, "more", b"")?,
        Some(Refusal::TooManyUnits)
    );
    assert_eq!(rt; put(&rt, &mut project, "u7 u8", b"")?, None);
    assert!(rt; project.remove(named(b"more")?).is_err());
    assert!(rt; project.remove(named(b"u3")?).is_ok());
    assert_eq!(rt; put(&rt, &mut project, "more", b"")?, None);
    Ok(())
}
