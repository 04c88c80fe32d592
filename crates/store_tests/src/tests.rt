ghost use Rattle.std.specs.Prelude.{IsTrue, OnOk};

use area::record_at::{is_live, name_of};
use cache::Cache;
use log_store::LogStore;
use names::Name;
use slot::SlotStore;
use std::fmt::Write;
use std::test::*;
use store::{Answer, Call, Store};

// Fails a test where the condition does not hold.
fn check(holds: bool, what: &str) -> Result<(), Fail>
    ensures { OnOk result (IsTrue holds) }
{
    if holds { Ok(()) } else { Err(Fail::new(what)) }
}

// Fails a test whose text is not the one expected.
fn check_text(text: &str, expected: &str, what: &str) -> Result<(), Fail> {
    if text == expected {
        Ok(())
    } else {
        Err(Fail::new(format_args!("{what}: {text}, not {expected}")))
    }
}

fn number(line: &[u8], place: usize) -> Result<usize, Fail> {
    let Some(word) = words::word(line, place) else {
        return Err(Fail::new("a number is missing"));
    };
    let text = std::str::from_utf8(word).map_err(|_| Fail::new("no text"))?;
    text.parse::<usize>().map_err(|_| Fail::new("no number"))
}

// The call of a line: put NAME LENGTH BYTE, get NAME ROOM or drop NAME.
fn call(rt: &HostRuntime, line: &[u8]) -> Result<Call, Fail> {
    let (Some(word), Some(name)) = (words::word(line, 0), words::word(line, 1)) else {
        return Err(Fail::new("no call"));
    };
    let Ok(name) = Name::from_text(name) else {
        return Err(Fail::new("no name"));
    };
    match word {
        b"put" => {
            let byte = u8::try_from(number(line, 3)?).map_err(|_| Fail::new("no byte"))?;
            let bytes = vec![in rt.alloc(); byte; number(line, 2)?]?;
            Ok(Call::Put { name, bytes })
        }
        b"get" => Ok(Call::Get { name }),
        _ => Ok(Call::Drop { name }),
    }
}

// Whether the buffer holds n equal bytes and behind them what was in it.
fn filled(buffer: &[u8], n: usize) -> bool {
    let Some((record, behind)) = buffer.split_at_checked(n) else {
        return false;
    };
    record.iter().all(|byte| Some(byte) == record.first()) && behind.iter().all(|byte| *byte == 238)
}

// The answers to the calls of a script: ok, no, the refusal's number, or a record's length and byte.
fn answers<S: Store>(rt: &HostRuntime, store: &mut S, script: &str) -> Result<String, Fail> {
    let mut text = String::new(rt.alloc());
    for line in script.split(';') {
        let line = line.as_bytes();
        let call = call(rt, line)?;
        let room = match &call {
            Call::Get { .. } => number(line, 2)?,
            _ => 0,
        };
        let mut buffer = vec![in rt.alloc(); 238u8; room]?;
        match store::act(store, &call, buffer.as_mut_slice()) {
            Ok(Answer::Done) => write!(text, "ok ")?,
            Ok(Answer::Nothing) => write!(text, "no ")?,
            Err(refusal) => {
                let n = refusal.number();
                write!(text, "{n} ")?;
            }
            Ok(Answer::Found(n)) => {
                check(filled(buffer.as_slice(), n), "the buffer")?;
                let byte = buffer.first().copied().unwrap_or(0);
                write!(text, "{n}:{byte} ")?;
            }
        }
    }
    Ok(text)
}

// Runs a script over one store, and expects these answers.
fn expects<S: Store>(
    rt: &HostRuntime,
    store: &mut S,
    script: &str,
    expected: &str,
    what: &str,
) -> Result<(), Fail> {
    let text = answers(rt, store, script)?;
    check_text(text.as_str(), expected, what)
}

// Runs a script over every kind of store in areas full of ones, and expects the same answers of each.
fn every(rt: &HostRuntime, length: usize, script: &str, expected: &str) -> Result<(), Fail> {
    let area = vec![in rt.alloc(); 1u8; length]?;
    let mut slots = SlotStore::open(area);
    expects(rt, &mut slots, script, expected, "slot")?;
    let mut log = LogStore::open(slots.close());
    expects(rt, &mut log, script, expected, "log")?;
    let mut cache = Cache::open(rt.alloc(), SlotStore::open(log.close()))?;
    expects(rt, &mut cache, script, expected, "cache over slots")?;
    let mut cache = Cache::open(rt.alloc(), LogStore::open(cache.close().close()))?;
    expects(rt, &mut cache, script, expected, "cache over a log")
}

// Where the records of a log lie after a script.
fn lies(rt: &HostRuntime, length: usize, script: &str, expected: &str) -> Result<(), Fail> {
    let mut log = LogStore::open(vec![in rt.alloc(); 1u8; length]?);
    let _ = answers(rt, &mut log, script)?;
    let mut text = String::new(rt.alloc());
    for (at, record) in log.records() {
        let mark = if is_live(record) { "" } else { "!" };
        let Some(name) = name_of(record) else {
            return Err(Fail::new("no name"));
        };
        write!(text, "{at}{mark}{name} ")?;
    }
    check_text(text.as_str(), expected, "where the records lie")
}

#[test]
fn no_row_takes_nothing(rt: HostRuntime) -> Result<(), Fail> {
    every(
        &rt,
        1906,
        "put a 0 1;put a 1897 1;get a 0;drop a",
        "41 42 no no ",
    )
}

#[test]
fn one_row_is_replaced(rt: HostRuntime) -> Result<(), Fail> {
    every(
        &rt,
        1907 + 1906,
        "put a 1896 7;put b 0 1;put a 3 8;get a 3;put a 1896 9;get a 1896;drop a;put b 1 5;get a 9;get b 9",
        "ok 41 ok 3:8 ok 1896:9 ok ok no 1:5 ",
    )
}

#[test]
fn a_buffer_one_byte_short(rt: HostRuntime) -> Result<(), Fail> {
    every(
        &rt,
        3814,
        "put a 5 2;get a 4;get a 5;get a 6;get b 0;put e 0 0;get e 0;get e 3;put a 1897 3;get a 9",
        "ok 43 5:2 5:2 no ok 0:0 0:238 42 5:2 ",
    )
}

#[test]
fn twenty_four_rows_and_no_more(rt: HostRuntime) -> Result<(), Fail> {
    every(
        &rt,
        25 * 1907,
        "put a1 9 1;put a2 9 1;put a3 9 1;put a4 9 1;put a5 9 1;put a6 9 1;put a7 9 1;put a8 9 1;put b1 9 1;put b2 9 1;put b3 9 1;put b4 9 1;put b5 9 1;put b6 9 1;put b7 9 1;put b8 9 1;put c1 9 1;put c2 9 1;put c3 9 1;put c4 9 1;put c5 9 1;put c6 9 1;put c7 9 1;put c8 9 1;put d1 9 1;put a1 1896 4;drop b1;put d1 9 6;get a1 1896;get b1 9;get d1 9",
        "ok ok ok ok ok ok ok ok ok ok ok ok ok ok ok ok ok ok ok ok ok ok ok ok 41 ok ok ok 1896:4 no 9:6 ",
    )
}

#[test]
fn more_names_than_copies(rt: HostRuntime) -> Result<(), Fail> {
    every(
        &rt,
        6 * 1907,
        "put a 1 1;put b 1 2;put c 1 3;put d 1 4;put e 1 5;get a 1;get b 1;drop a;drop c;drop c;get a 1;get c 1;put b 2 7;get b 2;get d 1;get e 1;drop f",
        "ok ok ok ok ok 1:1 1:2 ok ok no no no ok 2:7 1:4 1:5 no ",
    )
}

#[test]
fn a_log_slides_past_its_dead(rt: HostRuntime) -> Result<(), Fail> {
    lies(
        &rt,
        3814,
        "put a 1896 1;put b 89 2;put a 1600 3;put a 1896 4",
        "0b 100a ",
    )?;
    lies(
        &rt,
        3814,
        "put a 9 1;put b 1889 2;drop a;put c 1889 3",
        "0b 1900c ",
    )?;
    lies(
        &rt,
        5721,
        "put a 9 1;put b 1889 2;put c 1889 3;drop b;put d 1896 4",
        "0a 20c 1920d ",
    )?;
    lies(
        &rt,
        3814,
        "put a 9 1;put b 1889 2;put a 1879 3;drop a;put c 9 4",
        "0b 1900c ",
    )
}

#[test]
fn a_put_behind_a_dead_record(rt: HostRuntime) -> Result<(), Fail> {
    lies(&rt, 1927, "put a 1890 1;put a 1 2", "0!a 1901a ")?;
    lies(&rt, 1907, "put a 0 1;drop a;put b 0 2", "0!a 11b ")?;
    lies(&rt, 1907, "put a 0 1;put b 0 2", "0a ")
}
