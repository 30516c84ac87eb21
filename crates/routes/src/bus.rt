// The bus: rerouters and bus wires, and the two operations that each of them comes from (`push_bus_node`).
ghost use Rattle.std.specs.Prelude.{◌≡◌, ◌+◌, ◌<◌, [], ◌∷◌, length};
ghost use Rattle.routes.specs.Buffers.{inward as inwardOf, outward as outwardOf};
ghost use Rattle.routes.specs.Holding.{end_node, end_port, turns_of, role_of, part_of, RoomForRerouter, RoomForWire, Placing, Delivering};

use base::ids::{NodeId, RerouterId};
use base::numbers::{MISSING, ORIGIN};
use base::rows::{BusWireRow, RerouterRow};

// What a bus wire leaves.
#[derive(Clone, Copy)]
pub enum End {
    Port { node: NodeId, port: u32 },
    Rerouter(RerouterId),
}

// An end, with the count of rerouters back to its port, itself included.
#[derive(Clone, Copy)]
pub struct Feed {
    pub end: End,
    pub depth: u32,
}

// How far a rerouter is turned, with its number in the row.
#[derive(Clone, Copy)]
pub enum Rotation {
    Deg0 = 0,
    Deg90 = 1,
    Deg180 = 2,
    Deg270 = 3,
}

// P3: a rerouter's role, with its number in the row.
#[derive(Clone, Copy)]
pub enum Role {
    Gutter = 0,
    Line = 1,
    Source = 2,
}

// P3: a rerouter's part, with its number in the row.
#[derive(Clone, Copy)]
pub enum Part {
    Source = 1,
    Head = 2,
    Link = 3,
    Tap = 4,
    GateSide = 5,
    Corner = 6,
}

// A rerouter before it is placed, its coordinates as held: what feeds it gives it its depth. It stands in a lane or beside a row. Its rotation, role and part are
// the numbers of its row, which `u32::from` gives of a `Rotation`, a `Role` and a `Part`.
// Stays (no plainer): `push_bus_node` places a rerouter of any numbers.
#[derive(Clone, Copy)]
pub struct Rerouter {
    pub x: u32,
    pub y: u32,
    pub z: u32,
    pub rotation: u32,
    pub role: u32,
    pub part: u32,
    pub colour: NodeId,
    pub page: u32,
    pub lane: Option<u32>,
    pub row: Option<u32>,
}

// How many rows of the two buffers are written.
// Stays (no plainer): nested in `BusCounts`, which C reads, each of its counts would be named through two structs.
#[derive(Clone, Copy, Default)]
pub struct BusCount {
    pub rerouters: usize,
    pub wires: usize,
}

// How many rerouters, bus wires and suppressed ports a bus has in the buffers.
#[repr(C)]
#[derive(Clone, Copy, Default)]
pub struct BusCounts {
    pub rerouters: usize,
    pub bus_wires: usize,
    pub ports: usize,
}

// The bus after a rerouter, and the feed of that rerouter.
#[derive(Clone, Copy)]
pub struct Placed {
    pub count: BusCount,
    pub feed: Feed,
}

// The numbers in a rerouter's row.
impl From<Rotation> for u32 {
    ghost from_gives = { λ rotation number. number ≡ turns_of rotation };

    fn from(rotation: Rotation) -> u32 {
        rotation as u32
    }
}

impl From<Role> for u32 {
    ghost from_gives = { λ role number. number ≡ role_of role };

    fn from(role: Role) -> u32 {
        role as u32
    }
}

impl From<Part> for u32 {
    ghost from_gives = { λ part number. number ≡ part_of part };

    fn from(part: Part) -> u32 {
        part as u32
    }
}

// A coordinate of 32 bits as it is held.
pub fn inward(c: u32) -> u32
    ensures { result ≡ inwardOf c }
{
    c.wrapping_add(ORIGIN)
}

// A held coordinate as a number of 32 bits.
fn outward(c: u32) -> u32
    ensures { result ≡ outwardOf c }
{
    c.wrapping_sub(ORIGIN)
}

// The two numbers that an end is written as.
impl From<End> for [u32; 2] {
    fn from(end: End) -> [u32; 2]
        ensures { result ≡ end_node end ∷ end_port end ∷ [] }
    {
        match end {
            End::Port { node, port } => [node.0, port],
            End::Rerouter(rerouter) => [rerouter.0, MISSING],
        }
    }
}

// R13: a rerouter, and in the same step the bus wire that feeds it. Its depth is one more than its feeder's.
pub fn push_bus_node(
    rerouters: &mut [RerouterRow],
    bus_wires: &mut [BusWireRow],
    count: BusCount,
    feed: Feed,
    new: Rerouter,
) -> Placed
    requires { RoomForRerouter rerouters.old bus_wires.old count feed }
    ensures { Placing rerouters.old bus_wires.old count feed new result rerouters.new bus_wires.new }
{
    let n = count.rerouters;
    let w = count.wires;
    let number = n as u32;
    let [node, port] = <[u32; 2]>::from(feed.end);
    let depth = feed.depth + 1;
    rerouters[n] = [
        outward(new.x),
        outward(new.y),
        outward(new.z),
        new.rotation,
        new.role,
        new.part,
        new.colour.0,
        new.page,
        new.lane.unwrap_or(MISSING),
        new.row.unwrap_or(MISSING),
        depth,
    ];
    bus_wires[w] = [node, port, number, MISSING, MISSING, MISSING];
    Placed {
        count: BusCount {
            rerouters: n + 1,
            wires: w + 1,
        },
        feed: Feed {
            end: End::Rerouter(RerouterId(number)),
            depth,
        },
    }
}

// A delivery of wire `wire` to its target, with the distance counted so far.
pub fn push_delivery(
    bus_wires: &mut [BusWireRow],
    count: BusCount,
    feed: Feed,
    node: NodeId,
    port: u32,
    wire: u32,
) -> BusCount
    requires { RoomForWire bus_wires.old count }
    ensures { Delivering bus_wires.old count feed node.0 port wire result bus_wires.new }
{
    let w = count.wires;
    let [from, from_port] = <[u32; 2]>::from(feed.end);
    bus_wires[w] = [from, from_port, node.0, port, wire, feed.depth];
    BusCount {
        wires: w + 1,
        ..count
    }
}
