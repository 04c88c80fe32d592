// The word `translate`: one source with the interfaces of its imports, by formula or by echo.
use crate::lines::Line;
use crate::{files, print, usage};
use anyhow::anyhow;
use formula::Formula;
use names::{Fault, Name};
use product::{Interface, Product, Row};
use std::str::FromStr;
use translator::{Echo, Translator};

// The translators that there are.
#[derive(Clone, Copy, Debug, PartialEq, Eq)]
enum Language {
    Formula,
    Echo,
}

// A word that names no translator.
#[derive(Clone, Copy, Debug, PartialEq, Eq)]
struct UnknownLanguage;

impl FromStr for Language {
    type Err = UnknownLanguage;

    fn from_str(word: &str) -> Result<Language, UnknownLanguage> {
        match word {
            "formula" => Ok(Language::Formula),
            "echo" => Ok(Language::Echo),
            _ => Err(UnknownLanguage),
        }
    }
}

pub fn run(rt: &HostRuntime, args: &[String]) -> anyhow::Result<()> {
    let mut paths = Vec::new(rt.alloc());
    let mut language = Language::Formula;
    let mut rest = args.iter();
    // no `for`, since `--as` takes the word behind it
    while let Some(arg) = rest.next() {
        if arg.as_str() != "--as" {
            paths.push(arg.as_str())?;
        } else if let Some(word) = rest.next() {
            language = named(rt, word.as_str())?;
        }
    }
    let [source, interfaces @ ..] = paths.as_slice() else {
        usage::print(rt)?;
        return Err(anyhow!("translate takes a source"));
    };
    let source = files::bytes(rt, source)?;
    let mut imports = Vec::new(rt.alloc());
    for path in interfaces {
        imports.push(interface(rt, path)?)?;
    }
    match language {
        Language::Echo => show(rt, &mut Echo::new(), source.as_slice(), imports.as_slice()),
        Language::Formula => {
            let mut translator = Formula::open(rt.alloc())?;
            show(rt, &mut translator, source.as_slice(), imports.as_slice())
        }
    }
}

// The translator that a word names.
fn named(rt: &HostRuntime, word: &str) -> anyhow::Result<Language> {
    word.parse::<Language>().or_else(|_| {
        eprintln!(rt; "--as takes formula or echo")?;
        Err(anyhow!("no such translator"))
    })
}

// Translates, and prints the product or the fault.
fn show<T: Translator>(
    rt: &HostRuntime,
    translator: &mut T,
    source: &[u8],
    imports: &[Interface],
) -> anyhow::Result<()> {
    let mut out = Product::open(rt.alloc())?;
    match translator.translate(source, imports, &mut out) {
        Ok(_) => product(rt, &out),
        Err(fault) => {
            println!(rt; "{fault}")?;
            println!(rt; "{}", meaning(fault))?;
            Err(anyhow!("the source has a fault"))
        }
    }
}

fn product(rt: &HostRuntime, product: &Product) -> anyhow::Result<()> {
    print::rows(rt, product.interface.rows())?;
    print!(rt; "code ")?;
    print::hex(rt, product.code.as_slice())?;
    print::places(rt, product)
}

// What is wrong, in a sentence. By numbers, as a person is told them: the fault may be of any translator.
fn meaning(fault: Fault) -> &'static str {
    match fault.code {
        1 => "The first line has to be the word formula, and nothing else.",
        2 =>
            "The line has a word of no form: not a name, an import word, a literal or an operator.",
        3 =>
            "The line is no declaration: write const NAME = E, without call or x, or fun NAME = E.",
        4 => "The name is reserved or declared above: choose another.",
        5 => "The line uses a name that is unknown, or of no use where it stands.",
        7 =>
            "The constant's value, or a part of it, does not fit in 32 bits, or a divisor is zero.",
        8 => "Constants need each other in a circle, and this one waits for it.",
        _ => too_much(fault.line),
    }
}

fn too_much(line: u16) -> &'static str {
    if line == 0 {
        "There is too much: at most 512 source bytes, 4 imports, 384 code bytes and 32 references."
    } else {
        "There is too much: at most 8 parentheses open at once, and 12 declarations."
    }
}

// The interface that a file has: one row a line; code, entries and references are passed over.
fn interface(rt: &HostRuntime, path: &str) -> anyhow::Result<Interface> {
    let mut interface = Interface::open(rt.alloc())?;
    let text = files::text(rt, path)?;
    for (number, text) in (1..usize::MAX).zip(text.lines()) {
        read_line(rt, &Line { path, number, text }, &mut interface)?;
    }
    Ok(interface)
}

fn read_line(rt: &HostRuntime, line: &Line<'_>, interface: &mut Interface) -> anyhow::Result<()> {
    let Some(first) = line.word(0) else {
        return Ok(());
    };
    if is_passed(first) && line.word(3).is_none() {
        return Ok(());
    }
    let marked = matches!(first, b"row") && line.word(4).is_some();
    let Some(row) = (if marked { row(line, 1) } else { row(line, 0) }) else {
        return line.wrong(
            rt,
            "no row: write NAME KIND VALUE LINE",
            "the interface is wrong",
        );
    };
    interface.push(row).or_else(|refusal| line.refused(rt, refusal, "the interface is refused"))
}

// The lines of a product that say nothing of its interface.
fn is_passed(word: &[u8]) -> bool {
    matches!(word, b"code" | b"entry" | b"reference")
}

// The row that four words of a line are, from a place on, where no word stands behind them.
fn row(line: &Line<'_>, place: u8) -> Option<Row> {
    let start = usize::from(place);
    if line.word(start + 4).is_some() {
        return None;
    }
    Some(Row {
        name: Name::from_text(line.word(start)?).ok()?,
        kind: line.count(start + 1)?,
        value: line.count(start + 2)?,
        line: line.count(start + 3)?,
    })
}
