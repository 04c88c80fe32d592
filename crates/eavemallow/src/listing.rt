// Reads a listing and puts its units into a project.
use crate::files;
use crate::lines::Line;
use names::Name;
use project::Project;

const WRONG: &str = "the listing is wrong";

// The project that a listing names. A line that is wrong is told, and then there is no project.
pub fn load(rt: &HostRuntime, path: &str) -> anyhow::Result<Project> {
    let mut project = Project::open(rt.alloc())?;
    let text = files::text(rt, path)?;
    for (number, text) in (1..usize::MAX).zip(text.lines()) {
        let line = Line { path, number, text };
        if let Some(word) = line.word(0) {
            unit(rt, &mut project, &line, word)?;
        }
    }
    Ok(project)
}

// One line: NAME SOURCEFILE [IMPORT ..].
fn unit(
    rt: &HostRuntime,
    project: &mut Project,
    line: &Line<'_>,
    word: &[u8],
) -> anyhow::Result<()> {
    let name = name(rt, line, word)?;
    if project.find(name).is_some() {
        return line.wrong(rt, "there is a unit of this name above", WRONG);
    }
    let Some(file) = line.word(1) else {
        return line.wrong(rt, "a unit needs a source file behind its name", WRONG);
    };
    let source = source(rt, line, file)?;
    let imports = imports(rt, line)?;
    project
        .put(name, imports.as_slice(), source.as_slice())
        .or_else(|refusal| line.refused(rt, refusal, "a unit is refused"))
}

fn name(rt: &HostRuntime, line: &Line<'_>, word: &[u8]) -> anyhow::Result<Name> {
    Name::from_text(word).or_else(|refusal| line.refused(rt, refusal, "no name"))
}

// The bytes of a source file.
fn source(rt: &HostRuntime, line: &Line<'_>, file: &[u8]) -> anyhow::Result<Vec<u8>> {
    let Ok(file) = std::str::from_utf8(file) else {
        return line.wrong(rt, "the source file's name is no text", WRONG);
    };
    let found = files::beside(rt, line.path, file)?;
    files::bytes(rt, found.as_str()).or_else(|_| line.wrong(
        rt,
        "its source file cannot be read",
        WRONG,
    ))
}

// The words behind the source file, as names.
fn imports(rt: &HostRuntime, line: &Line<'_>) -> anyhow::Result<Vec<Name>> {
    let mut imports = Vec::new(rt.alloc());
    for word in (2..usize::MAX).map_while(|place| line.word(place)) {
        imports.push(name(rt, line, word)?)?;
    }
    Ok(imports)
}
