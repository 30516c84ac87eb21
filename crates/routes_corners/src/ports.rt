// Wires by target port: which share one, and which lead to a suppressed one. Their keys are packed and sorted: along them each wire takes the class of
// the one before, if that leads to the same port, and a port that is handed in is found close behind the one before it, or by halves.
ghost use Rattle.std.specs.Prelude.{◌≡◌, ℕ, ◌+◌, ◌-◌, ◌*◌, ◌<◌, ◌≤◌, Bool, true, false, ◌||◌, length, slice_index};
ghost use Rattle.base.specs.Keys.{Rising, FirstNotBelow};
ghost use Rattle.routes.specs.Bus.{same_port};
ghost use Rattle.routes.specs.Buffers.{port_in};
ghost use Rattle.routes_corners.specs.CornerTables.{Classed, flag_at};
ghost use Rattle.routes_corners.specs.Ports.{port_key, wire_key, PortsLow, wire_at, class_at, PortKeys, Ported, PortRoom, the_port, goes_to, FlaggedBy, among_ports};

use base::keys::{first_not_below, key_alone, number_behind, sort_keys, with_number};
use base::rows::{PortRow, Record};

// As many keys are looked at one after the other from the place of the port before on: ports that come in order mostly have theirs among them.
const NEAR_KEYS: usize = 16;

// The wires, the class of each wire's target port, and in front the sorted keys of those ports, each with its wire's number behind.
#[derive(Clone, Copy)]
pub struct WirePorts<'a> {
    pub wires: &'a [Record],
    pub classes: &'a [u32],
    pub keys: &'a [u64],
}

// A port in one number: its node, and the port in 16 bits (S11).
fn port_key(node: u32, port: u32) -> u64
    ensures { result ≡ port_key node port }
{
    u64::from(node) * 65_536 + u64::from(port)
}

// The keys of all wires, in order.
// Stays (no plainer): taps, stops and ports have keys of their own, and a closure that makes the key would promise in its contract all that this loop does.
fn fill_keys(wires: &[Record], keys: &mut [u64])
    requires { (length wires.now ≤ length keys.old) × (length wires.now ≤ 8192) }
    ensures { (w : ℕ) → w < length wires.now → slice_index keys.new w ≡ wire_key wires.now w * 8192 + w }
{
    for (w, wire) in wires.iter().enumerate() {
        keys[w] = with_number(port_key(wire[3], wire[4]), w);
    }
}

// The wire that comes p-th.
fn wire_at(keys: &[u64], p: usize) -> usize
    requires { p < length keys.now }
    ensures { result ≡ wire_at keys.now p }
{
    number_behind(keys[p])
}

// The class of the wire that comes p-th: that of the one before, if both lead to one port, or a new one.
fn class_at(keys: &[u64], p: usize, class: u32) -> u32
    requires { p < length keys.now }
    ensures { result ≡ class_at keys.now p class }
{
    if p == 0 {
        return wire_at(keys, p) as u32;
    }
    if key_alone(keys[p - 1]) == key_alone(keys[p]) {
        return class;
    }
    wire_at(keys, p) as u32
}

// The classes of all wires, along their sorted keys.
fn class_along(wires: &[Record], keys: &[u64], classes: &mut [u32])
    requires { PortKeys wires.now keys.now × (length wires.now ≤ length classes.old) }
    ensures { Classed wires.now classes.new (length wires.now) }
{
    let mut class = 0;
    // Stays (no plainer): a class is told by the keys at two places, this one and the one before.
    for p in 0..wires.len() {
        class = class_at(keys, p, class);
        classes[wire_at(keys, p)] = class;
    }
}

// The classes of all wires, and in front their sorted keys. The spare keys are work space.
pub fn class_ports(wires: &[Record], classes: &mut [u32], keys: &mut [u64], spare: &mut [u64])
    requires ports_low { PortsLow wires.now × (length wires.now ≤ 8192) }
    requires wires_in_bounds { (length wires.now ≤ length classes.old) × (length wires.now ≤ length keys.old) × (length wires.now ≤ length spare.old) }
    ensures { Ported wires.now classes.new keys.new }
{
    fill_keys(wires, keys);
    sort_keys(&mut keys[..wires.len()], spare);
    class_along(wires, keys, classes);
}

// Whether a wire's target port is this one.
fn goes_to(wire: &Record, port: PortRow) -> bool
    ensures { result ≡ same_port (the_port (slice_index wire.now 3) (slice_index wire.now 4)) (port_in port) }
{
    (wire[3] == port[0]) & (wire[4] == port[1])
}

// Whether the keys in front of a place are below the key, as the last of them is.
fn is_behind(keys: &[u64], from: usize, key: u64) -> bool
    requires { from ≤ length keys.now }
    ensures { result ≡ true → 0 < from → slice_index keys.now (from - 1) < key }
{
    from == 0 || keys[from - 1] < key
}

// The first of the rising keys that is not below the key, or their count: among the next few from a place on, if it is not in front of that, and else by halves.
// Ports that come in order are found by one walk.
fn seek_key(keys: &[u64], from: usize, key: u64) -> usize
    requires { (from ≤ length keys.now) × Rising keys.now (length keys.now) }
    ensures { FirstNotBelow keys.now (length keys.now) key result }
{
    if is_behind(keys, from, key) {
        // Stays (no plainer): the place behind the last key is looked at too, and no element stands there.
        for p in from..from + NEAR_KEYS {
            if p == keys.len() || key <= keys[p] {
                return p;
            }
        }
    }
    first_not_below(keys, key)
}

// The flag of the class of a suppressed port, if a wire leads to it. Its numbers may be beyond the sheet's, so the wire's own are asked. Its place among the keys,
// looked for from the one before it on, comes back.
fn flag_port(t: WirePorts<'_>, from: usize, flags: &mut [bool], port: PortRow) -> usize
    requires ported { Ported t.wires.now t.classes.now t.keys.now }
    requires from_in_bounds { from ≤ length t.wires.now }
    requires port_room { PortRoom t.wires.now t.classes.now flags.old }
    ensures upper_bound { result ≤ length t.entry.wires.now }
    ensures by_index { (test : ℕ → Bool) → FlaggedBy test t.entry.wires.now t.entry.classes.now flags.old
        → FlaggedBy (λ w. goes_to t.entry.wires.now (port_in port) w || test w) t.entry.wires.now t.entry.classes.now flags.new }
{
    let key = with_number(port_key(port[0], port[1]), 0);
    let keys = &t.keys[..t.wires.len()];
    let p = seek_key(keys, from, key);
    let Some(found) = keys.get(p) else {
        return p;
    };
    let w = number_behind(*found);
    if goes_to(&t.wires[w], port) {
        flags[t.classes[w] as usize] = true;
    }
    p
}

// The flags of the ports handed in, in whatever order, over flags that are all clear.
pub fn flag_ports(t: WirePorts<'_>, ports: &[PortRow], flags: &mut [bool])
    requires ported { Ported t.wires.now t.classes.now t.keys.now }
    requires port_room { PortRoom t.wires.now t.classes.now flags.old }
    requires flags_clear { (k : ℕ) → k < length t.wires.now → flag_at flags.old k ≡ false }
    ensures { FlaggedBy (among_ports t.entry.wires.now ports.now (length ports.now)) t.entry.wires.now t.entry.classes.now flags.new }
{
    let mut p = 0;
    for port in ports {
        p = flag_port(t, p, flags, *port);
    }
}
