// Code as instructions, one a line with its place.
use codec::Input;

// Whether all of the code is instructions.
fn is_formula(code: &[u8]) -> bool {
    let mut input = Input { rest: code };
    // at most so many turns, since each instruction takes a byte or more
    for _ in 0..code.len() {
        if input.rest.is_empty() {
            return true;
        }
        if mnemonics::next(&mut input).is_err() {
            return false;
        }
    }
    input.rest.is_empty()
}

// The instructions, where the code is such; else nothing.
pub fn print(rt: &HostRuntime, code: &[u8]) -> anyhow::Result<()> {
    if !is_formula(code) {
        return Ok(());
    }
    let mut input = Input { rest: code };
    for _ in 0..code.len() {
        let place = code.len().saturating_sub(input.rest.len());
        match mnemonics::next(&mut input) {
            Ok(instruction) => println!(rt; "  {place:4}  {instruction}")?,
            Err(_) => break,
        }
    }
    Ok(())
}
