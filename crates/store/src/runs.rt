// Calls as values over any store, and the law over whole runs.
ghost use Rattle.std.specs.Prelude.{◌≡◌, List, []};
ghost use Rattle.store.specs.declared.call.Call.{Call};
ghost use Rattle.store.specs.Runs.{Stands, Answers, told, told_all};

use crate::call::{Answer, Call};
use crate::contract::Store;
use names::Refusal;

// Makes the call. After any calls that led to the store's pairs, the answer is the one due, and the pairs are those that the calls with this one lead to.
pub fn act<S: Store>(store: &mut S, call: &Call, buffer: &mut [u8]) -> Result<Answer, Refusal>
    ensures answers { (past : List Call) → Stands past (S.Store.pairs store.old) → Answers S.Store.LIMIT (S.Store.rows store.old) past call.now buffer.old buffer.new result }
    ensures leads { (past : List Call) → Stands past (S.Store.pairs store.old) → Stands (told S.Store.LIMIT (S.Store.rows store.old) past call.now) (S.Store.pairs store.new) }
    ensures rows { S.Store.rows store.new ≡ S.Store.rows store.old }
{
    match call {
        Call::Put { name, bytes } => {
            store.put(*name, bytes.as_slice())?;
            Ok(Answer::Done)
        }
        Call::Get { name } => match store.get(*name, buffer)? {
            Some(n) => Ok(Answer::Found(n)),
            None => Ok(Answer::Nothing),
        },
        Call::Drop { name } => {
            let held = store.drop(*name);
            Ok(if held { Answer::Done } else { Answer::Nothing })
        }
    }
}

// Makes the calls in order, with one buffer for what they get.
pub fn run<S: Store>(store: &mut S, calls: &[Call], buffer: &mut [u8])
    ensures leads { (past : List Call) → Stands past (S.Store.pairs store.old) → Stands (told_all S.Store.LIMIT (S.Store.rows store.old) past calls.now) (S.Store.pairs store.new) }
    ensures rows { S.Store.rows store.new ≡ S.Store.rows store.old }
{
    for call in calls {
        let _ = act(store, call, buffer);
    }
}

// Makes the calls and then one more, which it answers. From a store with no pair, after any calls: a get answers the record last put under
// the name and not dropped since, or none; a put is refused exactly where its record is too long or there is no row for its new name.
pub fn ask<S: Store>(
    store: &mut S,
    calls: &[Call],
    scratch: &mut [u8],
    last: &Call,
    buffer: &mut [u8],
) -> Result<Answer, Refusal>
    ensures { S.Store.pairs store.old ≡ [] → Answers S.Store.LIMIT (S.Store.rows store.old) (told_all S.Store.LIMIT (S.Store.rows store.old) [] calls.now) last.now buffer.old buffer.new result }
{
    run(store, calls, scratch);
    act(store, last, buffer)
}
