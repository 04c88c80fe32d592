// How the program is called.

const TEXT: &str =
    "eavemallow: a build manager for firmware units whose keeping is proved right\n\n  eavemallow order LISTING                          the order in which a project's units are linked\n  eavemallow translate SOURCE [INTERFACE ...] [--as echo]\n                                                    a source's rows, code, entries and references, or its fault\n  eavemallow show FILE [--image | --artifact]       the parts of an image or an artifact\n  eavemallow store KIND SCRIPT                      the calls of a script on a store, and its area at the end\n  eavemallow help                                   this page\n\nA listing has one unit a line: NAME SOURCEFILE [IMPORT ...], and # begins a comment.\nKIND is slot or log, or either behind cache+. The pages under docs/ describe every file and script.";

pub fn print(rt: &HostRuntime) -> anyhow::Result<()> {
    println!(rt; "{TEXT}")?;
    Ok(())
}
