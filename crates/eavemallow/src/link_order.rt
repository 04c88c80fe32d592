// The word `order`: the link order of a listing's project.
use crate::{listing, usage};
use anyhow::anyhow;
use project::{Links, Project};

pub fn run(rt: &HostRuntime, args: &[String]) -> anyhow::Result<()> {
    let [path] = args else {
        usage::print(rt)?;
        return Err(anyhow!("order takes a listing"));
    };
    let project = listing::load(rt, path.as_str())?;
    let mut links = Links::open(rt.alloc())?;
    match links.check(&project) {
        Ok(_) => names(rt, &project, &links),
        Err(refusal) => {
            println!(rt; "{refusal}")?;
            println!(rt; "{}", refusal.remedy())?;
            Err(anyhow!("the project cannot be linked"))
        }
    }
}

// The names of the units, one a line.
fn names(rt: &HostRuntime, project: &Project, links: &Links) -> anyhow::Result<()> {
    for name in links
        .places()
        .iter()
        .filter_map(|place| project.name(*place))
    {
        println!(rt; "{name}")?;
    }
    Ok(())
}
