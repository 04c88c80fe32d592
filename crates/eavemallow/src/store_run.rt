// The word `store`: runs a script over a store, and shows the area at the end.
use crate::lines::Source;
use crate::{files, picture, script, usage};
use anyhow::anyhow;
use cache::Cache;
use log_store::LogStore;
use slot::SlotStore;

pub fn run(rt: &HostRuntime, args: &[String]) -> anyhow::Result<()> {
    let [kind, path] = args else {
        usage::print(rt)?;
        return Err(anyhow!("store takes a kind and a script"));
    };
    let text = files::text(rt, path.as_str())?;
    let script = Source {
        path: path.as_str(),
        text: text.as_str(),
    };
    let length = script::area(rt, &script)?;
    let area = vec![in rt.alloc(); 0u8; length]?;
    over(rt, kind.as_str(), area, &script)
}

// The script over a store of the kind.
fn over(rt: &HostRuntime, kind: &str, area: Vec<u8>, script: &Source<'_>) -> anyhow::Result<()> {
    match kind {
        "slot" => {
            let mut slots = SlotStore::open(area);
            script::run(rt, &mut slots, script)?;
            picture::slots(rt, &slots)
        }
        "log" => {
            let mut log = LogStore::open(area);
            script::run(rt, &mut log, script)?;
            picture::log(rt, &log)
        }
        "cache+slot" => {
            let mut cache = Cache::open(rt.alloc(), SlotStore::open(area))?;
            script::run(rt, &mut cache, script)?;
            picture::slots(rt, cache.below())
        }
        "cache+log" => {
            let mut cache = Cache::open(rt.alloc(), LogStore::open(area))?;
            script::run(rt, &mut cache, script)?;
            picture::log(rt, cache.below())
        }
        _ => {
            eprintln!(rt; "{kind}: a store is of the kind slot, log, cache+slot or cache+log")?;
            Err(anyhow!("no such kind of store"))
        }
    }
}
