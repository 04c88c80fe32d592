// Files, with errors that name them.
use anyhow::anyhow;
use std::fs;
use std::path::{Path, PathBuf};

// The bytes of a file.
pub fn bytes(rt: &HostRuntime, path: &str) -> anyhow::Result<Vec<u8>> {
    fs::read(rt, path).or_else(|e| {
        eprintln!(rt; "{path}: cannot be read: {e}")?;
        Err(e.into())
    })
}

// The text of a file.
pub fn text(rt: &HostRuntime, path: &str) -> anyhow::Result<String> {
    String::from_utf8(bytes(rt, path)?).or_else(|_| {
        eprintln!(rt; "{path}: is no text")?;
        Err(anyhow!("no text"))
    })
}

// A file that another names: looked up from the other's folder.
pub fn beside(rt: &HostRuntime, other: &str, file: &str) -> anyhow::Result<PathBuf> {
    let folder = Path::new(other).parent().unwrap_or(Path::new(""));
    Ok(folder.join(rt.alloc(), file)?)
}
