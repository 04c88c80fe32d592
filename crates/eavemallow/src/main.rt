// The program `eavemallow`: one word for each thing it does. What matters is in the libraries below; this reads files and prints.
#![tactic(auto)]

mod files;
mod instructions;
mod lines;
mod link_order;
mod listing;
mod picture;
mod print;
mod script;
mod show;
mod store_run;
mod translate;
mod usage;

use anyhow::anyhow;
use std::env;

fn main(rt: HostRuntime) -> anyhow::Result<()> {
    let args: Vec<String> = env::args(&rt)?.collect(rt.alloc())?;
    match args.as_slice() {
        [_, word, rest @ ..] => run(&rt, word.as_str(), rest),
        _ => usage::print(&rt),
    }
}

fn run(rt: &HostRuntime, word: &str, rest: &[String]) -> anyhow::Result<()> {
    match word {
        "order" => link_order::run(rt, rest),
        "translate" => translate::run(rt, rest),
        "show" => show::run(rt, rest),
        "store" => store_run::run(rt, rest),
        "help" => usage::print(rt),
        _ => {
            usage::print(rt)?;
            Err(anyhow!("no such word"))
        }
    }
}
