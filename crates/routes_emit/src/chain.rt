// What the walk over the taps holds, and the three places where it puts a rerouter: on the upstream feed, beside it as a tap, at the end of the row's chain.
ghost use Rattle.std.specs.Prelude.{◌≡◌};
ghost use Rattle.std.specs.Option.{unwrap_or};
ghost use Rattle.sheet.specs.Table.{MISSING};
ghost use Rattle.routes.specs.Holding.{turns_of, role_of, part_of, rerouter_of};
ghost use Rattle.routes_emit.specs.Emitting.{lane_rerouter_of, row_rerouter_of, Ready, Spends, Becomes, hung_on, tapped_off, chained_on};

use base::rows::{BusWireRow, RerouterRow};
use routes::bus::{BusCount, Feed, Part, Rerouter, Role, Rotation, push_bus_node};
use routes_taps::taps::Lane;

// R12: what the walk over the taps holds: how much is written, the feed of links and taps, the tap of the group's last own level, and the end of the row's
// chain so far.
#[derive(Clone, Copy)]
pub struct Emission {
    pub count: BusCount,
    pub upstream: Feed,
    pub stop_tap: Feed,
    pub row_end: Feed,
}

// A head, link or tap at x in the column of the lane.
pub(crate) fn lane_rerouter(l: Lane, x: u32, rotation: Rotation, part: Part) -> Rerouter
    ensures { rerouter_of result ≡ lane_rerouter_of l x (turns_of rotation) (part_of part) }
{
    Rerouter {
        x,
        y: l.y,
        z: l.z,
        rotation: u32::from(rotation),
        role: u32::from(Role::Gutter),
        part: u32::from(part),
        colour: l.colour,
        page: l.page,
        lane: Some(l.lane),
        row: None,
    }
}

// A rerouter beside a row of the lane's page.
pub(crate) fn row_rerouter(
    l: Lane,
    row: Option<u32>,
    x: u32,
    y: u32,
    rotation: Rotation,
    role: Role,
    part: Part,
) -> Rerouter
    ensures { rerouter_of result ≡ row_rerouter_of l (unwrap_or row MISSING) x y (turns_of rotation) (role_of role) (part_of part) }
{
    Rerouter {
        x,
        y,
        z: l.z,
        rotation: u32::from(rotation),
        role: u32::from(role),
        part: u32::from(part),
        colour: l.colour,
        page: l.page,
        lane: None,
        row,
    }
}

// Stays (no plainer): the three steps differ in the feed that they hang on and in those that they move; one for all would have to be told which.
// Stays (C interface): the caller lends the buffers, and each goes by itself from here on.
impl Emission {
    // A rerouter hung on the upstream feed, on which links and taps hang from then on.
    pub(crate) fn hang_on(
        &mut self,
        rerouters: &mut [RerouterRow],
        bus_wires: &mut [BusWireRow],
        new: Rerouter,
    )
        requires { Ready 1 1 rerouters.old bus_wires.old self.old }
        ensures spends { Spends 1 1 rerouters.old bus_wires.old self.old rerouters.new bus_wires.new self.new }
        ensures becomes { Becomes (hung_on (rerouter_of new)) rerouters.old bus_wires.old self.old rerouters.new bus_wires.new self.new }
    {
        let placed = push_bus_node(rerouters, bus_wires, self.count, self.upstream, new);
        self.count = placed.count;
        self.upstream = placed.feed;
    }

    // A stop's tap, hung on the upstream feed: the row's chain begins there.
    pub(crate) fn tap_off(
        &mut self,
        rerouters: &mut [RerouterRow],
        bus_wires: &mut [BusWireRow],
        new: Rerouter,
    )
        requires { Ready 1 1 rerouters.old bus_wires.old self.old }
        ensures spends { Spends 1 1 rerouters.old bus_wires.old self.old rerouters.new bus_wires.new self.new }
        ensures becomes { Becomes (tapped_off (rerouter_of new)) rerouters.old bus_wires.old self.old rerouters.new bus_wires.new self.new }
    {
        let placed = push_bus_node(rerouters, bus_wires, self.count, self.upstream, new);
        self.count = placed.count;
        self.stop_tap = placed.feed;
        self.row_end = placed.feed;
    }

    // A rerouter chained to the end of the row's chain.
    pub(crate) fn chain_on(
        &mut self,
        rerouters: &mut [RerouterRow],
        bus_wires: &mut [BusWireRow],
        new: Rerouter,
    )
        requires { Ready 1 1 rerouters.old bus_wires.old self.old }
        ensures spends { Spends 1 1 rerouters.old bus_wires.old self.old rerouters.new bus_wires.new self.new }
        ensures becomes { Becomes (chained_on (rerouter_of new)) rerouters.old bus_wires.old self.old rerouters.new bus_wires.new self.new }
    {
        let placed = push_bus_node(rerouters, bus_wires, self.count, self.row_end, new);
        self.count = placed.count;
        self.row_end = placed.feed;
    }
}
