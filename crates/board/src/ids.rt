// Which record an id names, and a chip's top chip. Ids are chained by bucket, so that no board makes a lookup slow: at most ID_MOST / BUCKETS,
// 244, further ids share a bucket.
ghost use Rattle.std.specs.Prelude.{◌≡◌, List, length, get_or, set, ◌+◌, IfSome, MatchOption};
ghost use Prim.Native.Nat.{ℕ, ◌≤◌, ◌<◌};
ghost use Rattle.base.specs.Lists.{found};
ghost use Rattle.board.specs.Board.{Board, field};
ghost use Rattle.board.specs.Groups.{top_chip};
ghost use Rattle.board.specs.Index.{Index, column, found_of, entry_of, NoChipFrom};

use base::ids::NodeId;
use base::numbers::MISSING;
use base::rows::{IdRow, Record};

const BUCKETS: u32 = 4096;

fn bucket_of(id: u32) -> usize
    ensures { result ≡ Rattle.board.specs.Index.bucket_of id }
{
    (id % BUCKETS) as usize
}

// The ids of a section's records: the first `count` rows are its entries.
// Stays (no plainer): an index is not cut to its entries, since the heads of the buckets stand in the rows behind them, too.
#[derive(Clone, Copy)]
pub struct IdIndex<'a> {
    pub rows: &'a [IdRow],
    pub count: usize,
    pub ghost chained: { Index rows.now count },
}

impl IdIndex<'_> {
    // The newest entry that has the id.
    pub fn find(self, id: NodeId) -> Option<usize>
        ensures value { result ≡ found_of (entry_of self.entry.rows.now self.entry.count id.0) }
        ensures below { IfSome result (λ i. i < self.entry.count) }
    {
        let wanted = id.0;
        // Stays (no heap): an id's bucket is followed by links, in place of a map.
        // Stays (no plainer): a link is an entry's place and one, 0 for none, so that an array of zeros is an index without entries.
        let mut link = self.rows[bucket_of(wanted)][2];
        while link != 0 {
            let i = (link - 1) as usize;
            if self.rows[i][0] == wanted {
                return Some(i);
            }
            link = self.rows[i][1];
        }
        None
    }

    pub(crate) fn has(self, id: NodeId) -> bool
        ensures { result ≡ found (entry_of self.entry.rows.now self.entry.count id.0) }
    {
        self.find(id).is_some()
    }
}

// One more entry.
pub fn add_id(index: &mut [IdRow], n: usize, id: NodeId)
    requires index { Index index.old n }
    requires n_in_bounds { (n < length index.old) × (n < 4294967295) }
    ensures index_after { column 0 index.new ≡ set (column 0 index.old) n id.0 }
    ensures index_2 { Index index.new (Prim.Native.Nat.suc n) }
{
    let new = id.0;
    let k = bucket_of(new);
    let next = index[k][2];
    let entry = index[n];
    index[n] = [new, next, entry[2]];
    // n and k may be one row, so it is read again.
    let bucket = index[k];
    index[k] = [bucket[0], bucket[1], (n + 1) as u32];
}

// The newest of the chip records that has the id.
fn find_chip(chips: &[Record], id: NodeId) -> Option<usize>
    ensures { MatchOption result (NoChipFrom chips.now id.0 0) (λ c. (c < length chips.now) × (field chips.now c 1 ≡ id.0) × NoChipFrom chips.now id.0 (c + 1)) }
{
    chips.iter().rposition(|chip| chip[1] == id.0)
}

// G1: a chip's top chip. A parent stands before its chips, so each search goes on below the record found.
pub fn top_chip(chips: &[Record], id: NodeId) -> NodeId
    ensures { (b : Board) → b.chips ≡ chips.now → result.0 ≡ top_chip b (length chips.now) id.0 }
{
    let Some(c) = find_chip(chips, id) else {
        return id;
    };
    let parent = chips[c][2];
    if parent == MISSING {
        id
    } else {
        top_chip(&chips[..c], NodeId(parent))
    }
}
