// Names that are declared.
ghost use Rattle.std.specs.Prelude.{◌≡◌, ◌≤◌, length, count_by};
ghost use Rattle.std.specs.Result.{result_err};
ghost use Rattle.grammar.specs.Line.{is_function};
ghost use Rattle.scope.specs.Names.{reserved, declared, ill_named, misnamed, named, is_constant, entry_of};

use grammar::{CONST, Declaration, FORMULA, FUN, Flaw, Kind, X};
use names::{Fault, Name};

fn is_reserved(name: &Name) -> bool
    ensures { result ≡ reserved name.now.bytes }
{
    [X, CONST, FUN, FORMULA].contains(&name.bytes())
}

fn is_declared(name: &Name, declarations: &[Declaration]) -> bool
    ensures { result ≡ declared name.now.bytes declarations.now }
{
    declarations.iter().any(|d| d.name == *name)
}

// Refuses the declaration at place i by its name or its number.
fn check_name(declarations: &[Declaration], i: usize, d: &Declaration) -> Result<(), Fault>
    requires { i ≤ length declarations.now }
    ensures { result_err result ≡ ill_named declarations.now i d.now }
{
    if is_reserved(&d.name) || is_declared(&d.name, &declarations[..i]) {
        return Err(Flaw::IllNamed.at(d.line));
    }
    if i >= 12 {
        return Err(Flaw::TooMuch.at(d.line));
    }
    Ok(())
}

// Refuses the first declaration that may not stand, by its name or its number.
pub fn check_names(declarations: &[Declaration]) -> Result<(), Fault>
    ensures { result_err result ≡ misnamed declarations.now 0 declarations.now }
{
    for (i, d) in declarations.iter().enumerate() {
        check_name(declarations, i, d)?;
    }
    Ok(())
}

// The first declaration of a name.
fn find(name: &Name, declarations: &[Declaration]) -> Option<Declaration>
    ensures { result ≡ named name.now.bytes declarations.now }
{
    declarations.iter().find(|d| d.name == *name).copied()
}

// Whether a name is that of a constant.
pub fn is_constant(name: &Name, declarations: &[Declaration]) -> bool
    ensures { result ≡ is_constant name.now.bytes declarations.now }
{
    find(name, declarations).is_some_and(|d| d.kind == Kind::Constant)
}

// How many of these are functions.
fn functions_among(declarations: &[Declaration]) -> usize
    ensures { result ≡ count_by (λ d. is_function d.kind) declarations.now }
{
    declarations
        .iter()
        .filter(|d| d.kind == Kind::Function)
        .count()
}

// The number of the function of that name: how many functions stand before it, where it is one.
pub fn entry_of(name: &Name, declarations: &[Declaration]) -> Option<usize>
    ensures { result ≡ entry_of name.now.bytes declarations.now }
{
    // the declarations before it are told by their kinds alone, so that no name is compared twice
    let i = declarations.iter().position(|d| d.name == *name)?;
    match declarations[i].kind {
        Kind::Constant => None,
        Kind::Function => Some(functions_among(&declarations[..i])),
    }
}
