// Which taps share a group: their keys are packed and sorted, and along them each tap takes the group of the one before, if that has the same key.
ghost use Rattle.std.specs.Prelude.{◌≡◌, [], ◌∷◌, ℕ, ◌+◌, ◌*◌, ◌-◌, ◌≤◌, ◌<◌, ◌&&◌, eqb, length, get_or};
ghost use Rattle.board.specs.Board.{field};
ghost use Rattle.board_groups.specs.Shares.{Wired, tap_key, key_of, same_tap_key, packed, tap_at, starts_run, LeadsIn, Runs, Shared};

use base::keys::{key_alone, number_behind, sort_keys, with_number};
use base::rows::{Record, WorkRow};

// What taps of one group have in common: the page, and the source node and port of their wires.
#[derive(Clone, Copy, PartialEq, Eq)]
struct Key {
    page: u32,
    node: u32,
    port: u32,
}

// Stays (C interface): a tap is a row of the lent work space, read by places: 0 is its page, 1 its group, 7 its wire.
fn key_of(wires: &[Record], tap: WorkRow) -> Key
    requires { get_or tap 7 0 < length wires.now }
    ensures { result.page ∷ result.node ∷ result.port ∷ [] ≡ tap_key wires.now tap }
{
    let wire = wires[tap[7] as usize];
    Key {
        page: tap[0],
        node: wire[1],
        port: wire[2],
    }
}

// As many nodes, ports and pages have keys of their own where they are packed.
const NODES: u64 = 1 << 20;

const PORTS: u64 = 1 << 16;

const PAGES: u64 = 1 << 6;

// A key in one number: the source node in 20 bits, its port in 16, the page in 6.
fn pack_key(key: Key) -> u64
    ensures { (result ≡ packed (key.page ∷ key.node ∷ key.port ∷ [])) × (result < 2251799813685248) }
{
    let source = u64::from(key.node) % NODES * PORTS + u64::from(key.port) % PORTS;
    source * PAGES + u64::from(key.page) % PAGES
}

// The keys of the taps, in order. A tap's number stands behind its packed key.
fn fill_tap_keys(wires: &[Record], taps: &[WorkRow], keys: &mut [u64])
    requires { (length taps.now ≤ length keys.old) × (length taps.now ≤ 8192) × Wired wires.now taps.now (length taps.now) }
    ensures { (k : ℕ) → k < length taps.now → get_or keys.new k 0 ≡ packed (key_of wires.now taps.now k) * 8192 + k }
{
    // Stays (unproved): a loop over `keys.iter_mut().zip(..)` did not show what the keys end as.
    for (k, tap) in taps.iter().enumerate() {
        keys[k] = with_number(pack_key(key_of(wires, *tap)), k);
    }
}

// Whether two taps have the same key.
fn have_one_key(wires: &[Record], a: WorkRow, b: WorkRow) -> bool
    requires { (get_or a 7 0 < length wires.now) × (get_or b 7 0 < length wires.now) }
    ensures { result ≡ same_tap_key wires.now a b }
{
    key_of(wires, a) == key_of(wires, b)
}

// The wire of the first tap with the key of tap k.
fn first_wire(wires: &[Record], taps: &[WorkRow], k: usize) -> u32
    requires { (k < length taps.now) × Wired wires.now taps.now (k + 1) }
    ensures { LeadsIn wires.now taps.now k result }
{
    // Stays (unproved): the closure of `position` would read a tap's wire, and that the wire is there was not shown for each of its calls.
    for tap in &taps[..k] {
        if have_one_key(wires, *tap, taps[k]) {
            return tap[7];
        }
    }
    taps[k][7]
}

// Whether the key that comes p-th is another than the one before.
// Stays (no plainer): each key is looked at beside the one before it, and the first has none, so that windows of two would leave it out.
fn starts_run(keys: &[u64], p: usize) -> bool
    requires { p < length keys.now }
    ensures { result ≡ starts_run keys.now p }
{
    p == 0 || key_alone(keys[p - 1]) != key_alone(keys[p])
}

// The group of the tap that comes p-th, where the one before it has its own. Keys that are packed alike and differ all the same have
// numbers above the sheet's ranges: then the first tap is looked for.
fn group_at(wires: &[Record], taps: &[WorkRow], keys: &[u64], p: usize) -> u32
    requires by_index { (m : ℕ) × (p < m) × Runs wires.now taps.now keys.now m }
    requires leads_in { 0 < p → LeadsIn wires.now taps.now (tap_at keys.now (p - 1)) (field taps.now (tap_at keys.now (p - 1)) 1) }
    ensures { LeadsIn wires.now taps.now (tap_at keys.now p) result }
{
    let k = number_behind(keys[p]);
    if starts_run(keys, p) {
        return taps[k][7];
    }
    let before = taps[number_behind(keys[p - 1])];
    if have_one_key(wires, before, taps[k]) {
        return before[1];
    }
    first_wire(wires, taps, k)
}

// Gives the taps their groups, along their sorted keys.
fn share_along(wires: &[Record], taps: &mut [WorkRow], keys: &[u64])
    requires { Runs wires.now taps.old keys.now (length keys.now) × (length keys.now ≡ length taps.old) }
    ensures { Shared wires.now taps.old taps.new (length taps.old) }
{
    for (p, key) in keys.iter().enumerate() {
        let group = group_at(wires, taps, keys, p);
        taps[number_behind(*key)][1] = group;
    }
}

// Gives the taps their groups: the wire of the first tap with the same key.
pub fn share_groups(wires: &[Record], taps: &mut [WorkRow])
    requires { (length taps.old ≤ 8192) × Wired wires.now taps.old (length taps.old) }
    ensures { Shared wires.now taps.old taps.new (length taps.old) }
{
    let mut all_keys = [0u64; 8192];
    let mut spare = [0u64; 8192];
    let keys = &mut all_keys[..taps.len()];
    fill_tap_keys(wires, taps, keys);
    sort_keys(keys, &mut spare);
    share_along(wires, taps, keys);
}
