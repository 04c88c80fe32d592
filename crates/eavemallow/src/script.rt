// Scripts of calls on a store: a call a line, and its answer.
ghost use Rattle.std.specs.Prelude.{◌<◌, IfSome};

use crate::lines::{Line, Source, number};
use area::layout::{LONGEST, ROWS, SLOT};
use names::Name;
use store::{Answer, Call, Store};

const WRONG: &str = "the script is wrong";

// The length of the area that the script asks for, or that of the most rows.
pub fn area(rt: &HostRuntime, script: &Source<'_>) -> anyhow::Result<usize> {
    let path = script.path;
    for (number, text) in (1..usize::MAX).zip(script.text.lines()) {
        let line = Line { path, number, text };
        match line.word(0) {
            None => {}
            Some(b"area") => {
                let Some(length) = line.count(1) else {
                    return line.wrong(rt, "area takes a number of bytes", WRONG);
                };
                return Ok(length);
            }
            Some(_) => break,
        }
    }
    Ok(ROWS * SLOT)
}

// Makes the calls of the script, and prints each with its answer.
pub fn run<S: Store>(rt: &HostRuntime, store: &mut S, script: &Source<'_>) -> anyhow::Result<()> {
    let path = script.path;
    for (number, text) in (1..usize::MAX).zip(script.text.lines()) {
        let line = Line { path, number, text };
        match line.word(0) {
            None | Some(b"area") => {}
            Some(word) => {
                let call = call(rt, &line, word)?;
                let room = match &call {
                    Call::Get { .. } => line.count(2).unwrap_or(LONGEST),
                    _ => 0,
                };
                print!(rt; "{text}: ")?;
                answer(rt, store, &call, room)?;
            }
        }
    }
    Ok(())
}

// Makes a call with a buffer of so many bytes, and prints its answer.
fn answer<S: Store>(
    rt: &HostRuntime,
    store: &mut S,
    call: &Call,
    room: usize,
) -> anyhow::Result<()> {
    let mut buffer = vec![in rt.alloc(); 0u8; room]?;
    match store::act(store, call, buffer.as_mut_slice()) {
        Ok(Answer::Done) => println!(rt; "done")?,
        Ok(Answer::Nothing) => println!(rt; "none")?,
        Ok(Answer::Found(n)) => {
            print!(rt; "done length {n} ")?;
            hex(rt, buffer.as_slice(), n)?;
        }
        Err(refusal) => println!(rt; "refused {}", refusal.number())?,
    }
    Ok(())
}

// The first n bytes, in hexadecimal.
fn hex(rt: &HostRuntime, bytes: &[u8], n: usize) -> anyhow::Result<()> {
    for byte in bytes.iter().take(n) {
        print!(rt; "{byte:02x}")?;
    }
    if n == 0 {
        print!(rt; "-")?;
    }
    println!(rt; "")?;
    Ok(())
}

// The call of a line.
fn call(rt: &HostRuntime, line: &Line<'_>, word: &[u8]) -> anyhow::Result<Call> {
    let Some(text) = line.word(1) else {
        return line.wrong(rt, "a call names a record", WRONG);
    };
    let Ok(name) = Name::from_text(text) else {
        return line.wrong(rt, "this is no name", WRONG);
    };
    match word {
        b"get" => Ok(Call::Get { name }),
        b"drop" => Ok(Call::Drop { name }),
        b"put" => {
            let Some(text) = line.word(2) else {
                return line.wrong(rt, "put takes a record in hexadecimal, or -", WRONG);
            };
            let bytes = content(rt, line, text)?;
            Ok(Call::Put { name, bytes })
        }
        _ => line.wrong(rt, "a call is put, get or drop", WRONG),
    }
}

// The bytes of a record: - for none, LENGTH*HH for a run of one byte, else two digits a byte.
fn content(rt: &HostRuntime, line: &Line<'_>, text: &[u8]) -> anyhow::Result<Vec<u8>> {
    let mut bytes = Vec::new(rt.alloc());
    if let b"-" = text {
        return Ok(bytes);
    }
    if let [front @ .., b'*', high, low] = text {
        let (Some(length), Some(byte)) = (number(front), pair(*high, *low)) else {
            return line.wrong(rt, "a run is LENGTH*HH", WRONG);
        };
        return Ok(vec![in rt.alloc(); byte; length]?);
    }
    for digits in text.chunks(2) {
        let [high, low] = digits else {
            return line.wrong(rt, "two hexadecimal digits make a byte", WRONG);
        };
        let Some(byte) = pair(*high, *low) else {
            return line.wrong(rt, "this is no hexadecimal digit", WRONG);
        };
        bytes.push(byte)?;
    }
    Ok(bytes)
}

// The byte of two hexadecimal digits.
fn pair(high: u8, low: u8) -> Option<u8> {
    Some(digit(high)? * 16 + digit(low)?)
}

// The value of a hexadecimal digit.
fn digit(b: u8) -> Option<u8>
    ensures { IfSome result (λ d. d < 16) }
{
    u8::try_from(char::from(b).to_digit(16)?).ok()
}
