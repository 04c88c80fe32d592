// Each test takes sources with the fault that they have, or with the code that they give.
use formula::Formula;
use grammar::{Flaw, Kind};
use names::{Fault, Name};
use product::{Interface, Product, Row};
use std::alloc::Global;
use std::test::Fail;
use translator::Translator;

// Fails a test where the condition does not hold.
fn check(holds: bool, what: &str) -> Result<(), Fail> {
    if holds { Ok(()) } else { Err(Fail::new(what)) }
}

// The product that a source translates to, or its fault.
fn translated(
    heap: Global,
    source: &[u8],
    imports: &[Interface],
) -> Result<Result<Product, Fault>, Fail> {
    let mut translator = Formula::open(heap)?;
    let mut out = Product::open(heap)?;
    let answer = translator.translate(source, imports, &mut out);
    Ok(answer.map(|()| out))
}

// The source has the flaw at the line.
fn faults(heap: Global, source: &[u8], flaw: Flaw, line: u16) -> Result<(), Fail> {
    faults_with(heap, source, &[], flaw, line)
}

fn faults_with(
    heap: Global,
    source: &[u8],
    imports: &[Interface],
    flaw: Flaw,
    line: u16,
) -> Result<(), Fail> {
    match translated(heap, source, imports)? {
        Ok(_) => Err(Fail::new("no fault")),
        Err(fault) => check(fault == flaw.at(line), "the fault's code and line"),
    }
}

// The source gives so many rows, the last with the value, and the code.
fn gives(heap: Global, source: &[u8], rows: usize, value: i32, code: &[u8]) -> Result<(), Fail> {
    gives_with(heap, source, &[], rows, value, code)
}

fn gives_with(
    heap: Global,
    source: &[u8],
    imports: &[Interface],
    rows: usize,
    value: i32,
    code: &[u8],
) -> Result<(), Fail> {
    let Ok(out) = translated(heap, source, imports)? else {
        return Err(Fail::new("a fault"));
    };
    let last = out.interface.rows().last().map_or(0, |row| row.value);
    check(out.interface.rows().len() == rows, "the number of rows")?;
    check(last == value, "the last row's value")?;
    check(out.code.as_slice() == code, "the code")
}

// Interfaces, as many as asked, with one row each.
fn ones(
    heap: Global,
    count: u8,
    name: &[u8],
    kind: Kind,
    value: i32,
) -> Result<Vec<Interface>, Fail> {
    let mut interfaces = Vec::new(heap);
    for _ in 0..count {
        interfaces.push(one(heap, name, kind, value)?)?;
    }
    Ok(interfaces)
}

fn one(heap: Global, name: &[u8], kind: Kind, value: i32) -> Result<Interface, Fail> {
    let mut interface = Interface::open(heap)?;
    let name = Name::from_text(name).map_err(|_| Fail::new("no name"))?;
    let row = Row {
        name,
        // the discriminant of a kind is its number in a row
        kind: kind as u8,
        value,
        line: 1,
    };
    interface.push(row).map_err(|_| Fail::new("no room"))?;
    Ok(interface)
}

#[test]
fn first_lines(rt: HostRuntime) -> Result<(), Fail> {
    let heap = rt.alloc();
    faults(heap, b"", Flaw::Opening, 1)?;
    faults(heap, b"Formula\n", Flaw::Opening, 1)?;
    faults(heap, b"; c\nformula\n", Flaw::Opening, 1)?;
    faults(heap, b"formula\r\n", Flaw::Opening, 1)?;
    gives(heap, b"formula", 0, 0, b"")?;
    gives(heap, b"  formula ; c", 0, 0, b"")?;
    gives(heap, b"formula;c\n\n  \n;\t\xff\n", 0, 0, b"")
}

#[test]
fn words_of_no_form(rt: HostRuntime) -> Result<(), Fail> {
    let heap = rt.alloc();
    faults(heap, b"formula\nconst a = 2147483648\n", Flaw::Formless, 2)?;
    faults(heap, b"formula\nconst a = 00000000001\n", Flaw::Formless, 2)?;
    faults(heap, b"formula\nconst a = 1\r\n", Flaw::Formless, 2)?;
    faults(heap, b"formula\n\t\n", Flaw::Formless, 2)?;
    faults(heap, b"formula\n((((((((( $\n", Flaw::Formless, 2)?;
    gives(heap, b"formula\nconst a = 0000000007", 1, 7, b"")?;
    gives(heap, b"formula\nconst a = -2147483648", 1, -2147483648, b"")?;
    gives(heap, b"formula\nconst a = 1;2", 1, 1, b"")
}

#[test]
fn lines_of_no_form(rt: HostRuntime) -> Result<(), Fail> {
    let heap = rt.alloc();
    faults(heap, b"formula\nconst a = x\n", Flaw::NoDeclaration, 2)?;
    faults(
        heap,
        b"formula\nconst a = (f 1)\nfun f = x\n",
        Flaw::NoDeclaration,
        2,
    )?;
    faults(heap, b"formula\nconst a = - 1\n", Flaw::NoDeclaration, 2)?;
    faults(
        heap,
        b"formula\nconst x = 1\nconst\n",
        Flaw::NoDeclaration,
        3,
    )?;
    faults(heap, b"formula\n) (((((((((\n", Flaw::TooMuch, 2)?;
    faults(
        heap,
        b"formula\nfun f = (f (f (f (f (f (f (f (f (f x)))))))))\n",
        Flaw::TooMuch,
        2,
    )?;
    gives(
        heap,
        b"formula\nfun f = (- (- (- (- (- (- (- (- x x) x) x) x) x) x) x) x)",
        1,
        0,
        b"\x02\x02\x11\x02\x11\x02\x11\x02\x11\x02\x11\x02\x11\x02\x11\x02\x11\x3f",
    )
}

#[test]
fn names_declared(rt: HostRuntime) -> Result<(), Fail> {
    let heap = rt.alloc();
    faults(
        heap,
        b"formula\nconst x = 1\nfun f = nope\n",
        Flaw::IllNamed,
        2,
    )?;
    faults(
        heap,
        b"formula\nconst a = 1\nfun a = x\n",
        Flaw::IllNamed,
        3,
    )?;
    let twelve =
        b"formula\nconst a = 1\nconst b = 1\nconst c = 1\nconst d = 1\nconst e = 1\nconst f = 1\nconst g = 1\nconst h = 1\nconst i = 1\nconst j = 1\nconst k = 1\nconst l = 2\n";
    gives(heap, twelve, 12, 2, b"")?;
    let more =
        b"formula\nconst a = 1\nconst b = 1\nconst c = 1\nconst d = 1\nconst e = 1\nconst f = 1\nconst g = 1\nconst h = 1\nconst i = 1\nconst j = 1\nconst k = 1\nconst l = 2\nconst m = 3\n";
    faults(heap, more, Flaw::TooMuch, 14)
}

#[test]
fn names_used(rt: HostRuntime) -> Result<(), Fail> {
    let heap = rt.alloc();
    faults(
        heap,
        b"formula\nconst a = a\nfun f = nope\n",
        Flaw::IllUsed,
        3,
    )?;
    faults(heap, b"formula\nfun f = (x 1)\n", Flaw::IllUsed, 2)?;
    faults(heap, b"formula\nfun f = f\n", Flaw::IllUsed, 2)?;
    faults(heap, b"formula\nconst a = 1:t\n", Flaw::IllUsed, 2)?;
    let top = ones(heap, 1, b"t", Kind::Constant, -5)?;
    gives_with(heap, b"formula\nconst a = 1:t\n", &top, 1, -5, b"")?;
    faults_with(heap, b"formula\nfun f = (1:t x)\n", &top, Flaw::IllUsed, 2)?;
    faults_with(heap, b"formula\nfun f = 2:t\n", &top, Flaw::IllUsed, 2)
}

#[test]
fn entries_of_imports(rt: HostRuntime) -> Result<(), Fail> {
    let heap = rt.alloc();
    let eleven = ones(heap, 1, b"f", Kind::Function, 11)?;
    gives_with(
        heap,
        b"formula\nfun g = (1:f x)\n",
        &eleven,
        1,
        0,
        b"\x02\x30\x00\x3f",
    )?;
    let far = ones(heap, 1, b"f", Kind::Function, 12)?;
    faults_with(heap, b"formula\nfun g = (1:f x)\n", &far, Flaw::IllUsed, 2)
}

#[test]
fn constants(rt: HostRuntime) -> Result<(), Fail> {
    let heap = rt.alloc();
    faults(
        heap,
        b"formula\nconst a = b\nconst b = c\nconst c = b\n",
        Flaw::Circle,
        2,
    )?;
    faults(
        heap,
        b"formula\nconst a = (/ 1 0)\nconst b = b\n",
        Flaw::Circle,
        3,
    )?;
    faults(
        heap,
        b"formula\nconst a = (/ c 0)\nconst b = (/ 1 0)\nconst c = 1\n",
        Flaw::NoValue,
        3,
    )?;
    faults(
        heap,
        b"formula\nconst a = (/ -2147483648 -1)\n",
        Flaw::NoValue,
        2,
    )?;
    faults(
        heap,
        b"formula\nconst a = (* 0 (+ 2147483647 1))\n",
        Flaw::NoValue,
        2,
    )?;
    gives(heap, b"formula\nconst a = (/ -7 2)\n", 1, -3, b"")?;
    gives(
        heap,
        b"formula\nconst a = (- c 1)\nconst c = (< 1 2)\nconst d = (= a c)\n",
        3,
        0,
        b"",
    )
}

#[test]
fn limits(rt: HostRuntime) -> Result<(), Fail> {
    let heap = rt.alloc();
    faults(heap, &[b' '; 512], Flaw::Opening, 1)?;
    faults(heap, &[b' '; 513], Flaw::TooMuch, 0)?;
    let five = ones(heap, 5, b"a", Kind::Constant, 0)?;
    faults_with(heap, b"", &five, Flaw::TooMuch, 0)?;
    let calls =
        b"formula\nfun a = (a (a (a (a (a (a (a (a x))))))))\nfun b = (a (a (a (a (a (a (a (a x))))))))\nfun c = (a (a (a (a (a (a (a (a x))))))))\nfun d = (a (a (a (a (a (a (a (a x))))))))\nfun e = (a x)\n";
    faults(heap, calls, Flaw::TooMuch, 0)
}

#[test]
fn code(rt: HostRuntime) -> Result<(), Fail> {
    let heap = rt.alloc();
    gives(
        heap,
        b"formula\nconst top = 7\nfun over = (< top x)\n",
        2,
        0,
        b"\x01\x00\x00\x00\x07\x02\x14\x3f",
    )?;
    gives(
        heap,
        b"formula\nfun a = x\nfun b = (a (b -1))\n",
        2,
        1,
        b"\x02\x3f\x01\xff\xff\xff\xff\x30\x00\x30\x01\x3f",
    )?;
    gives(
        heap,
        b"formula\nfun f = (/ 1 0)\n",
        1,
        0,
        b"\x01\x00\x00\x00\x01\x01\x00\x00\x00\x00\x13\x3f",
    )
}
