// What a walk over the laid taps reads off the tables: a tap and its group's lane, and the level of the stop that it reaches.
ghost use Rattle.std.specs.Prelude.{◌≡◌, true, [], ◌+◌, ◌-◌, ◌*◌, ◌<◌, ◌≤◌, length, get_or};
ghost use Rattle.board.specs.Demands.{lane_y};
ghost use Rattle.base.specs.Views.{view};
ghost use Rattle.board.specs.Tables.{tap_in};
ghost use Rattle.routes_taps.specs.Taps.{rotation_over, row_on_page, LaneInRange, lane_read, ReachedNext};

use base::ids::NodeId;
use base::numbers::{BUS_BAND_GUTTER, LANE_PITCH, MISSING};
use base::rows::{Record, WorkRow};
use board::sections::Sections;
use routes::bus::Rotation;
use routes::laid::Laid;
use routes::levels::Level;

// R6, R10: how far from its brick a source or gate-side rerouter stands.
pub const TAP_RESERVE: u32 = 5;

// One wire that a lane carries, and where its target stands.
// Stays (no plainer): who uses a tap's numbers asks that they are in range (`TapRanges`; `LevelRange` of a level): `From` reads any row and asks nothing.
#[derive(Clone, Copy)]
pub struct Tap {
    pub page: u32,
    pub group: u32,
    pub row: u32,
    pub y: u32,
    pub x: u32,
    pub node: u32,
    pub port: u32,
    pub wire: u32,
}

// What every rerouter of a group's lane shares, the port that feeds it, and its source anchor: its x is MISSING where that is unplaced, and its row is there
// where it stands on the page.
// Stays (no plainer): the x is no Option. A head's answer already says that it is there: who writes the head or the source would open one that is always Some.
// Stays (no plainer): that its numbers are in range is asked for (`LaneRanges`) and no ghost field: one equation tells the lane that is read of the tables
// (`lane_read`), whatever they hold.
#[derive(Clone, Copy)]
pub struct Lane {
    pub page: u32,
    pub lane: u32,
    pub y: u32,
    pub z: u32,
    pub colour: NodeId,
    pub rotation: Rotation,
    pub node: NodeId,
    pub port: u32,
    pub source_x: u32,
    pub source_y: u32,
    pub source_row: Option<u32>,
}

// How many stops are reached, and the level of the newest.
#[derive(Clone, Copy)]
pub struct Reached {
    pub stops: usize,
    pub level: Level,
}

// Before the first tap no stop is reached.
pub const START: Reached = Reached {
    stops: 0,
    level: Level::Dropped,
};

// R2: the y of a lane, of so many lanes.
fn lane_y(min_y: u32, lanes: u32, lane: u32) -> u32
    requires { (lane ≤ lanes) × (6 + 2 * (lanes - lane) ≤ min_y) }
    ensures { result ≡ lane_y min_y lanes lane }
{
    min_y - BUS_BAND_GUTTER - LANE_PITCH * (lanes - lane)
}

// R4: the rotation of heads and links: whether the least x of the taps is greater than that of a placed source.
fn chain_rotation(x: u32, low: u32) -> Rotation
    ensures { result ≡ rotation_over x low }
{
    if (x != MISSING) & (x < low) {
        Rotation::Deg270
    } else {
        Rotation::Deg90
    }
}

// G10: the row of the source anchor, where that stands on the page.
fn source_row(nodes: &[Record], facts: &[WorkRow], s: usize, page: u32) -> Option<u32>
    requires { (s < length nodes.now) × (s < length facts.now) }
    ensures { result ≡ row_on_page nodes.now facts.now s page }
{
    if nodes[s][10] == page {
        Some(facts[s][0])
    } else {
        None
    }
}

// The lane of a tap's group.
pub fn lane_of(s: Sections<'_>, laid: Laid<'_>, page: u32, group: u32) -> Lane
    requires { LaneInRange s.pages.now s.nodes.now s.wires.now laid.facts.now laid.groups.now page group }
    ensures { result ≡ lane_read s.entry.pages.now s.entry.nodes.now s.entry.wires.now laid.entry.facts.now laid.entry.groups.now page group }
{
    let p = page as usize;
    let g = group as usize;
    let anchor = laid.facts[g][2] as usize;
    let source = &s.nodes[anchor];
    let lane = laid.groups[g][4];
    let x = source[8];
    Lane {
        page,
        lane,
        y: lane_y(s.pages[p][1], laid.facts[p][6], lane),
        z: s.pages[p][2],
        colour: NodeId(source[1]),
        rotation: chain_rotation(x, laid.groups[g][5]),
        node: NodeId(s.wires[g][1]),
        port: s.wires[g][2],
        source_x: x,
        source_y: source[9],
        source_row: source_row(s.nodes, laid.facts, anchor, page),
    }
}

// A laid tap, from its row.
impl From<WorkRow> for Tap {
    ghost use Rattle.routes_taps.specs.Taps.{tap_read};

    ghost from_gives = { λ row t. t ≡ tap_read row };

    fn from(row: WorkRow) -> Tap {
        let [page, group, row, y, x, node, port, wire] = row;
        Tap {
            page,
            group,
            row,
            y,
            x,
            node,
            port,
            wire,
        }
    }
}

// A new row reaches the next stop.
pub fn reach(stops: &[WorkRow], reached: Reached, fresh: bool) -> Reached
    requires { fresh ≡ true → reached.stops < length stops.now }
    ensures { ReachedNext stops.now reached fresh result }
{
    if fresh {
        Reached {
            stops: reached.stops + 1,
            level: Level::from(stops[reached.stops]),
        }
    } else {
        reached
    }
}
