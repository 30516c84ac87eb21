// The rows of the tables, by what they hold.
// Stays (C interface): C lends tables as plain numbers, and one type of row serves several tables, whose columns hold other things.

// A record of a sheet: its section, then its fields as held.
pub type Record = [u32; 16];

// A row of work space.
pub type WorkRow = [u32; 8];

// An output row: a rerouter's x, y, z, rotation, role, part, colour, page, lane, row, depth.
pub type RerouterRow = [u32; 11];

// A bus wire's from, from port, to, to port, wire, distance.
pub type BusWireRow = [u32; 6];

// A suppressed port's node and port.
pub type PortRow = [u32; 2];

// A page's lanes and band.
pub type PageRow = [u32; 2];

// An index of ids: the id of entry i, the entry before it in its bucket, and the head of bucket i.
// Stays (no plainer): an entry and a bucket share a row by its place alone, and the head is no part of the entry, so a struct of the three would tie what only lies side by side.
pub type IdRow = [u32; 3];
