// Opening a log over an area, looking at it, and giving the area back.
ghost use Rattle.std.specs.Prelude.{◌≡◌, [], take, vec_len};
ghost use Rattle.area.specs.Layout.{rows_of};
ghost use Rattle.log_store.specs.Chain.{bytes_of};
ghost use Rattle.log_store.specs.Kept.{records_of};

use crate::logs::LogStore;
use area::record_at::rows;

impl LogStore {
    // A store with no pair in the area, whatever bytes the area held; nothing is written.
    pub fn open(area: Vec<u8>) -> LogStore
        ensures rows { result.rows ≡ rows_of (vec_len area) }
        ensures area { result.area ≡ area }
        ensures none { records_of result ≡ [] }
    {
        let rows = rows(area.len());
        LogStore {
            area,
            rows,
            end: 0,
            count: 0,
        }
    }

    // The bytes of the area.
    pub fn area(&self) -> &[u8]
        ensures { result.now ≡ self.now.area.items }
    {
        self.area.as_slice()
    }

    // Where the log ends: behind the last record, live or dead. Its records lie one behind the other up to there.
    pub fn end(&self) -> usize
        ensures end { result ≡ self.now.end }
        ensures lie { take result self.now.area.items ≡ bytes_of (records_of self.now) }
    {
        self.end
    }

    // Gives the area back.
    pub fn close(self) -> Vec<u8>
        ensures { result ≡ self.area }
    {
        let LogStore {
            area,
            rows: _,
            end: _,
            count: _,
        } = self;
        area
    }
}
