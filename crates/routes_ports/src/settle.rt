// Suppressed ports: gathered from the deliveries as packed keys, sorted, and written once each.
ghost use Rattle.std.specs.Prelude.{◌≡◌, not, [], ◌∷◌, map, ◌+◌, ◌≤◌, ◌<◌, length, get_or, take, drop};
ghost use Rattle.routes_ports.specs.Ports.{targets};
ghost use Rattle.base.specs.Views.{view};
ghost use Rattle.routes.specs.Buffers.{port_row, port_in, wire_in};
ghost use Rattle.routes_ports.specs.Settling.{delivers_in, key_port, again, unique, ports_over, Settleable, Settled};

use base::keys::sort_keys;
use base::numbers::MISSING;
use base::rows::{BusWireRow, PortRow};

// So many ports are sorted at most: no wire is delivered twice, and a board has no more wires.
const PORTS_MOST: usize = 8_192;

// Whether a bus wire is a delivery to a port.
fn delivers(row: BusWireRow) -> bool
    ensures { result ≡ delivers_in row }
{
    row[3] != MISSING && (row[4] != MISSING || row[5] != MISSING)
}

// A node and a port in one key.
// Stays (no plainer): a key is a plain number, as `sort_keys` sorts them, and no `From` of this crate can make one.
fn port_key(node: u32, port: u32) -> u64
    ensures { key_port result ≡ port_in (node ∷ port ∷ []) }
{
    node as u64 * 4_294_967_296 + port as u64
}

// The port of a key.
fn port_of(key: u64) -> PortRow
    ensures { result ≡ port_row (key_port key) }
{
    [(key / 4_294_967_296) as u32, (key % 4_294_967_296) as u32]
}

// The targets of the deliveries among bus wires, from the newest to the oldest: how many there are.
fn gather_targets(bus_wires: &[BusWireRow], keys: &mut [u64]) -> usize
    requires { length (targets (view wire_in bus_wires.now (length bus_wires.now))) ≤ length keys.old }
    ensures value { result ≡ length (targets (view wire_in bus_wires.now (length bus_wires.now))) }
    ensures keys_after { map key_port (take result keys.new) ≡ targets (view wire_in bus_wires.now (length bus_wires.now)) }
{
    let mut n: usize = 0;
    for wire in bus_wires.iter().rev() {
        if delivers(*wire) {
            keys[n] = port_key(wire[2], wire[3]);
            n += 1;
        }
    }
    n
}

// The keys of ports.
fn add_ports(ports: &[PortRow], keys: &mut [u64])
    requires { length ports.now ≤ length keys.old }
    ensures { map key_port (take (length ports.now) keys.new) ≡ map port_in ports.now }
{
    for (i, port) in ports.iter().enumerate() {
        keys[i] = port_key(port[0], port[1]);
    }
}

// Whether the next key is another port, or there is none.
fn last_of_its_kind(keys: &[u64], i: usize) -> bool
    requires { i < length keys.now }
    ensures { result ≡ not (again (key_port (get_or keys.now i 0)) (map key_port (drop (i + 1) keys.now))) }
{
    i + 1 == keys.len() || keys[i] != keys[i + 1]
}

// Writes sorted ports without repetitions: how many there are.
fn write_once_each(keys: &[u64], ports: &mut [PortRow]) -> usize
    requires { length (unique (map key_port keys.now)) ≤ length ports.old }
    ensures value { result ≡ length (unique (map key_port keys.now)) }
    ensures ports_after { ports.new ≡ ports_over (unique (map key_port keys.now)) ports.old }
{
    let mut n: usize = 0;
    for (i, key) in keys.iter().enumerate() {
        if last_of_its_kind(keys, i) {
            ports[n] = port_of(*key);
            n += 1;
        }
    }
    n
}

// The first `u` ports, in any order, and the targets of the deliveries among the bus wires, ascending and each once: how many there are.
// Stays (no plainer): the slice of ports is not cut to the first `u`, since what is settled may be more and goes over it.
pub fn settle_ports(bus_wires: &[BusWireRow], ports: &mut [PortRow], u: usize) -> usize
    requires { Settleable bus_wires.now 0 (length bus_wires.now) ports.old u }
    ensures { Settled bus_wires.now 0 (length bus_wires.now) ports.old u ports.new result }
{
    let mut keys = [0u64; PORTS_MOST];
    let mut spare = [0u64; PORTS_MOST];
    let n = gather_targets(bus_wires, &mut keys);
    add_ports(&ports[..u], &mut keys[n..]);
    let keys = &mut keys[..n + u];
    sort_keys(keys, &mut spare);
    write_once_each(keys, ports)
}
