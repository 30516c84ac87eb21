// The plan sheet: the buffers as text, line by line.
// Stays (no plainer): a writer takes the lent bytes with the place to write at: a struct of the lent slice and the place would tell what it left by nested pairs.
ghost use Rattle.std.specs.Prelude.{◌≡◌, ℕ, ◌+◌, ◌*◌, ◌<◌, ◌≤◌, List, [], ◌∷◌, ◌++◌, map, length};
ghost use Rattle.sheet.specs.Text.{NEWLINE};
ghost use Rattle.sheet.specs.Written.{Wrote, tabbed};
ghost use Rattle.routes.specs.PlanSheet.{line as lineText, numbered, refusal_sheet};
ghost use Rattle.routes_plan_sheet.specs.Fields.{field_text, lane_line_in, rerouter_line_in, port_line_in, letter_of, wire_text_in, total_text, rows_text};

use base::numbers::{MISSING, NEWLINE, TAB};
use base::rows::{BusWireRow, PageRow, PortRow, RerouterRow};
use routes::bus::inward;
use sheet::write::{put_byte, put_coordinate, put_decimal, put_number};

// A field of a line: a number, a coordinate as it is held, a number of a row that may be missing, or the letter of an end.
#[derive(Clone, Copy)]
pub(crate) enum Field {
    Decimal(u32),
    Coordinate(u32),
    Number(u32),
    Letter(u8),
}

impl Field {
    // What the field says, without the tab before it.
    fn put_text(self, out: &mut [u8], at: usize) -> usize
        requires { at + 11 ≤ length out.old }
        ensures { Wrote out.old at (field_text self) out.new result }
    {
        match self {
            Field::Decimal(n) => put_decimal(out, at, n),
            Field::Coordinate(c) => put_coordinate(out, at, c),
            Field::Number(n) => put_number(out, at, n),
            Field::Letter(letter) => put_byte(out, at, letter),
        }
    }

    // A tab, and what the field says.
    fn put(self, out: &mut [u8], at: usize) -> usize
        requires { at + 12 ≤ length out.old }
        ensures wrote { Wrote out.old at (tabbed (field_text self)) out.new result }
        ensures upper_bound { result ≤ at + 11 }
    {
        let next = put_byte(out, at, TAB);
        self.put_text(out, next)
    }
}

// A line: its letter, its fields, byte 10.
fn put_line(out: &mut [u8], at: usize, letter: u8, fields: &[Field]) -> usize
    requires { at + 11 * length fields.now + 2 ≤ length out.old }
    ensures wrote { Wrote out.old at (lineText letter (map field_text fields.now)) out.new result }
    ensures upper_bound { result ≤ at + 11 * length fields.now + 2 }
{
    let mut next = put_byte(out, at, letter);
    for field in fields {
        next = field.put(out, next);
    }
    put_byte(out, next, NEWLINE)
}

// A kind of line, of which each row of a table has one. The row's number is its place in the table.
trait RowLine {
    type Row;

    ghost text: { ℕ → Self.Row → List ℕ };

    fn put_row(out: &mut [u8], at: usize, number: u32, row: &Self::Row) -> usize
        requires { at + 128 ≤ length out.old }
        ensures wrote { Wrote out.old at (text number row.now) out.new result }
        ensures upper_bound { result ≤ at + 128 };
}

// P2: a page's line.
struct PageLine;

impl RowLine for PageLine {
    type Row = PageRow;

    ghost text = { lane_line_in };

    fn put_row(out: &mut [u8], at: usize, number: u32, row: &PageRow) -> usize {
        let fields = [
            Field::Decimal(number),
            Field::Decimal(row[0]),
            Field::Decimal(row[1]),
        ];
        put_line(out, at, b'L', &fields)
    }
}

// P3: a rerouter's line.
struct RerouterLine;

impl RowLine for RerouterLine {
    type Row = RerouterRow;

    ghost text = { rerouter_line_in };

    fn put_row(out: &mut [u8], at: usize, number: u32, row: &RerouterRow) -> usize {
        let fields = [
            Field::Decimal(number),
            Field::Coordinate(inward(row[0])),
            Field::Coordinate(inward(row[1])),
            Field::Coordinate(inward(row[2])),
            Field::Decimal(row[3]),
            Field::Decimal(row[4]),
            Field::Decimal(row[5]),
            Field::Decimal(row[6]),
            Field::Decimal(row[7]),
            Field::Number(row[8]),
            Field::Decimal(row[10]),
        ];
        put_line(out, at, b'R', &fields)
    }
}

// An end's letter: `p` for a port, `b` for a rerouter, whose port is missing.
fn end_letter(port: u32) -> u8
    ensures { result ≡ letter_of port }
{
    if port == MISSING { b'b' } else { b'p' }
}

// P4: a bus wire's line.
struct BusWireLine;

impl RowLine for BusWireLine {
    type Row = BusWireRow;

    ghost text = { wire_text_in };

    fn put_row(out: &mut [u8], at: usize, _number: u32, row: &BusWireRow) -> usize {
        let fields = [
            Field::Letter(end_letter(row[1])),
            Field::Decimal(row[0]),
            Field::Number(row[1]),
            Field::Letter(end_letter(row[3])),
            Field::Decimal(row[2]),
            Field::Number(row[3]),
            Field::Number(row[4]),
            Field::Number(row[5]),
        ];
        put_line(out, at, b'B', &fields)
    }
}

// P5: a suppressed port's line.
struct PortLine;

impl RowLine for PortLine {
    type Row = PortRow;

    ghost text = { port_line_in };

    fn put_row(out: &mut [u8], at: usize, _number: u32, row: &PortRow) -> usize {
        let fields = [Field::Decimal(row[0]), Field::Decimal(row[1])];
        put_line(out, at, b'U', &fields)
    }
}

// The lines of a table's rows.
fn put_rows<L: RowLine>(out: &mut [u8], at: usize, rows: &[L::Row]) -> usize
    requires { (at + 128 * length rows.now ≤ length out.old) × (length rows.now < 4294967295) }
    ensures wrote { Wrote out.old at (numbered L.text 0 rows.now) out.new result }
    ensures upper_bound { result ≤ at + 128 * length rows.now }
{
    let mut next = at;
    for (k, row) in rows.iter().enumerate() {
        next = L::put_row(out, next, k as u32, row);
    }
    next
}

// What the T line counts.
#[derive(Clone, Copy)]
pub struct Totals {
    pub rerouters: u32,
    pub bus_wires: u32,
    pub deliveries: u32,
    pub direct: u32,
    pub laid: u32,
}

// P6: the last line, with the counts.
fn put_total_line(out: &mut [u8], at: usize, t: Totals) -> usize
    requires { at + 128 ≤ length out.old }
    ensures wrote { Wrote out.old at (total_text t) out.new result }
    ensures upper_bound { result ≤ at + 128 }
{
    let fields = [
        Field::Decimal(t.rerouters),
        Field::Decimal(t.bus_wires),
        Field::Decimal(t.deliveries),
        Field::Decimal(t.direct),
        Field::Decimal(t.laid),
    ];
    put_line(out, at, b'T', &fields)
}

// E12: the E line.
pub fn put_refusal(out: &mut [u8], at: usize, number: u32, place: u32) -> usize
    requires { at + 128 ≤ length out.old }
    ensures { Wrote out.old at (refusal_sheet number place) out.new result }
{
    let fields = [Field::Decimal(number), Field::Decimal(place)];
    put_line(out, at, b'E', &fields)
}

// The rows of a plan: its pages' answers, its rerouters, its bus wires and its suppressed ports.
#[derive(Clone, Copy)]
pub struct PlanRows<'a> {
    pub pages: &'a [PageRow],
    pub rerouters: &'a [RerouterRow],
    pub bus_wires: &'a [BusWireRow],
    pub ports: &'a [PortRow],
}

// The plan sheet of the plan that the rows hold.
pub fn put_plan(out: &mut [u8], rows: PlanRows<'_>, t: Totals) -> usize
    requires room { 128 * length rows.pages.now + 128 * length rows.rerouters.now + 128 * length rows.bus_wires.now + 128 * length rows.ports.now + 128 ≤ length out.old }
    requires few { (length rows.pages.now < 4294967295) × (length rows.rerouters.now < 4294967295) × (length rows.bus_wires.now < 4294967295) × (length rows.ports.now < 4294967295) }
    ensures { Wrote out.old 0 (rows_text rows.entry.pages.now rows.entry.rerouters.now rows.entry.bus_wires.now rows.entry.ports.now t) out.new result }
{
    let rerouters_at = put_rows::<PageLine>(out, 0, rows.pages);
    let wires_at = put_rows::<RerouterLine>(out, rerouters_at, rows.rerouters);
    let ports_at = put_rows::<BusWireLine>(out, wires_at, rows.bus_wires);
    let total_at = put_rows::<PortLine>(out, ports_at, rows.ports);
    put_total_line(out, total_at, t)
}
