// Walking through the records of a log.
ghost use Rattle.std.specs.Prelude.{◌≡◌, false, length, MatchOption};
ghost use Rattle.std.specs.Option.{option_map};
ghost use Rattle.store.specs.Pairs.{has, lookup};
ghost use Rattle.area.specs.Layout.{content};
ghost use Rattle.log_store.specs.Chain.{placed, PlaceOf};
ghost use Rattle.log_store.specs.Kept.{records_of, pairs_of, records_left};

use crate::logs::LogStore;
use crate::records::Records;
use area::record_at::is_held;
use names::Name;

impl LogStore {
    // The records in the area, live and dead, each with the place where it begins.
    pub fn records(&self) -> Records<'_>
        ensures { records_left result ≡ placed 0 (records_of self.now) }
    {
        Records {
            log: &self.area[..self.end],
            at: 0,
        }
    }

    // How many records are live.
    pub(crate) fn live(&self) -> usize
        ensures { result ≡ length (pairs_of self.now) }
    {
        self.count
    }

    // The live record of a name, with the place where it begins.
    pub(crate) fn find(&self, name: Name) -> Option<(usize, &[u8])>
        ensures place { MatchOption result (has (pairs_of self.now) name.bytes ≡ false) (λ r. PlaceOf (records_of self.now) name.bytes r.0) }
        ensures finds { lookup (pairs_of self.now) name.bytes ≡ option_map (λ r. content r.1.now) result }
    {
        self.records().find(|r| is_held(r.1, name))
    }
}
