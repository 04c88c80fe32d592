// The dependency order, for every kind of key that has a total order: of the items whose needs are all placed, the smallest
// key comes next, and of equal keys the earlier listed. `order` is proved to answer what `ordered` of the specifications
// says, and that to be the only list that meets the rule. Units are linked in this order, by name.
#![tactic(auto)]

ghost use Rattle.std.specs.Prelude.{◌≡◌, ◌<◌, length, slice_index_or};
ghost use Rattle.std.specs.Ordering.{is_eq, is_lt};
ghost use Rattle.order.specs.Dependency.{placed, settled, free, ready, next, left, ordered, Answers};
ghost use Rattle.order.specs.Law.{Lawful};

// The item at a place needs every item of a key.
#[derive(Clone, Copy, Debug, PartialEq, Eq)]
pub struct Need<K> {
    pub item: usize,
    pub key: K,
}

// Why items have no order: none of those left can be placed, the smallest of which is told; or there are fewer places than items.
#[derive(Clone, Copy, Debug, PartialEq, Eq)]
pub enum Unordered {
    Stuck(usize),
    Short,
}

fn is_placed(done: &[usize], item: usize) -> bool
    ensures { result ≡ placed done.now item }
{
    done.iter().any(|p| *p == item)
}

// Whether two keys are equal by their order, whatever `==` of the keys says.
fn same<K: Ord>(a: &K, b: &K) -> bool
    ensures { result ≡ is_eq (K.Ord.cmp a.now b.now) }
{
    a.cmp(b).is_eq()
}

// Whether the first key comes before the second.
fn less<K: Ord>(a: &K, b: &K) -> bool
    ensures { result ≡ is_lt (K.Ord.cmp a.now b.now) }
{
    a.cmp(b).is_lt()
}

// Every item of the key is placed.
fn is_settled<K: Ord>(keys: &[K], done: &[usize], key: &K) -> bool
    ensures { result ≡ settled K.Ord.cmp done.now key.now 0 keys.now }
{
    keys.iter()
        .enumerate()
        .all(|(j, k)| !same(k, key) || is_placed(done, j))
}

// Every need of the item is settled.
fn is_free<K: Ord>(keys: &[K], needs: &[Need<K>], done: &[usize], item: usize) -> bool
    ensures { result ≡ free K.Ord.cmp keys.now done.now item needs.now }
{
    needs
        .iter()
        .all(|n| n.item != item || is_settled(keys, done, &n.key))
}

// The item is not placed, and all its needs are.
fn is_ready<K: Ord>(keys: &[K], needs: &[Need<K>], done: &[usize], item: usize) -> bool
    ensures { result ≡ ready K.Ord.cmp keys.now needs.now done.now item }
{
    if is_placed(done, item) {
        return false;
    }
    is_free(keys, needs, done, item)
}

// The key at place i is smaller than the one at place b.
fn beats<K: Ord>(keys: &[K], i: usize, b: usize) -> bool
    requires { (i < length keys.now) × (b < length keys.now) }
    ensures { (d : K) → result ≡ is_lt (K.Ord.cmp (slice_index_or keys.now i d) (slice_index_or keys.now b d)) }
{
    less(&keys[i], &keys[b])
}

// The item that comes next behind those placed, if any can.
fn pick<K: Ord>(keys: &[K], needs: &[Need<K>], done: &[usize]) -> Option<usize>
    ensures { result ≡ next K.Ord.cmp keys.now needs.now done.now }
{
    let mut best = None;
    // kept as a loop: as a chain it was tried, and no lemma of the library says what `min_by` picks by a closure
    for i in 0..keys.len() {
        if is_ready(keys, needs, done, i) {
            best = match best {
                None => Some(i),
                Some(b) => Some(if beats(keys, i, b) { i } else { b }),
            };
        }
    }
    best
}

// The smallest item that is not placed, if any is left.
pub fn smallest_left<K: Ord>(keys: &[K], done: &[usize]) -> Option<usize>
    ensures { result ≡ left K.Ord.cmp keys.now done.now }
{
    let no_needs: [Need<K>; 0] = [];
    pick(keys, &no_needs, done)
}

// Writes the place of each item in the list of keys, in the order in which they come.
fn fill<K: Ord>(keys: &[K], needs: &[Need<K>], places: &mut [usize]) -> Result<(), Unordered>
    ensures { Answers K.Ord.cmp keys.now needs.now places.old places.new result }
{
    if places.len() < keys.len() {
        return Err(Unordered::Short);
    }
    // by the place, since what stands before it is read while it is written
    for count in 0..keys.len() {
        let Some(item) = pick(keys, needs, &places[..count]) else {
            return Err(Unordered::Stuck(smallest_left(keys, &places[..count]).unwrap_or(0)));
        };
        places[count] = item;
    }
    Ok(())
}

// The order that the definition gives is the only list that meets the rule.
fn is_lawful<K: Ord>(_keys: &[K], _needs: &[Need<K>])
    ensures { Lawful K.Ord.cmp _keys.now _needs.now (ordered K.Ord.cmp _keys.now _needs.now) }
{}

// Orders the items. Places gets the place of each item in the list of keys, in the order in which they come.
pub fn order<K: Ord>(keys: &[K], needs: &[Need<K>], places: &mut [usize]) -> Result<(), Unordered>
    ensures answers { Answers K.Ord.cmp keys.now needs.now places.old places.new result }
    ensures lawful { Lawful K.Ord.cmp keys.now needs.now (ordered K.Ord.cmp keys.now needs.now) }
{
    is_lawful(keys, needs);
    fill(keys, needs, places)
}
