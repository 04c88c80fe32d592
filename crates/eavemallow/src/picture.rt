// Pictures of an area: a line for every record, with its offset, its mark, its name and its length.
use area::layout::{HEADER, SLOT};
use area::record_at::{is_live, length_of, name_of};
use log_store::LogStore;
use slot::SlotStore;
use store::Store;

// The records of a slot store, slot by slot.
pub fn slots(rt: &HostRuntime, slots: &SlotStore) -> anyhow::Result<()> {
    for (i, piece) in slots.area().chunks(SLOT).take(slots.capacity()).enumerate() {
        record(rt, i.saturating_mul(SLOT), piece)?;
    }
    Ok(())
}

// The records of a log, one behind the other.
pub fn log(rt: &HostRuntime, log: &LogStore) -> anyhow::Result<()> {
    for (at, piece) in log.records() {
        record(rt, at, piece)?;
    }
    Ok(())
}

// The record at the start of a piece; bytes that were never a record have no name.
fn record(rt: &HostRuntime, at: usize, piece: &[u8]) -> anyhow::Result<()> {
    if piece.len() < HEADER {
        return Ok(());
    }
    let Some(name) = name_of(piece) else {
        return Ok(());
    };
    let mark = if is_live(piece) { "live" } else { "dead" };
    println!(rt; "{at} {mark} {name} {}", length_of(piece))?;
    Ok(())
}
