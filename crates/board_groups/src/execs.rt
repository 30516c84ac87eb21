// The X records as keys, sorted once: whether one of them names a wire's target is searched by halves.
ghost use Rattle.std.specs.Prelude.{◌≡◌, ◌&&◌, ℕ, ◌≤◌, ◌<◌, eqb, length, get_or};
ghost use Rattle.base.specs.Lists.{any, upto};
ghost use Rattle.board.specs.Board.{field};
ghost use Rattle.board_groups.specs.Collecting.{WORD, exec_key, ExecKeys};

use base::ids::NodeId;
use base::keys::sort_keys;
use base::rows::Record;

// The X records, with their keys in rising order. Keys behind those say nothing.
#[derive(Clone, Copy)]
pub struct Execs<'a> {
    pub records: &'a [Record],
    pub keys: &'a [u64],
    ghost room: { length records.now ≤ length keys.now },
    ghost sorted: { ∥ ExecKeys records.now keys.now ∥₁ },
}

// How many ports there may be: a port stands behind its node.
const PORTS: u64 = 1 << 32;

// A node and a port in one key.
fn exec_key(node: NodeId, port: u32) -> u64
    ensures { result ≡ exec_key node.0 port }
{
    u64::from(node.0) * PORTS + u64::from(port)
}

// The key of an X record. Its port is less than a word, so that the key names no other node and port.
fn key_of_exec(exec: Record) -> u64
    ensures { (result ≡ exec_key (get_or exec 1 0) (get_or exec 2 0)) × (get_or exec 2 0 < WORD) }
{
    exec_key(NodeId(exec[1]), exec[2])
}

// The keys of the X records, in order.
fn fill_exec_keys(execs: &[Record], keys: &mut [u64])
    requires { length execs.now ≤ length keys.old }
    ensures { (e : ℕ) → e < length execs.now → (get_or keys.new e 0 ≡ exec_key (field execs.now e 1) (field execs.now e 2)) × (field execs.now e 2 < WORD) }
{
    // Stays (unproved): a loop over `keys.iter_mut().zip(..)` did not show what the keys end as.
    for (e, exec) in execs.iter().enumerate() {
        keys[e] = key_of_exec(*exec);
    }
}

// Sorts the keys of the X records. The spare keys are work space.
pub fn sort_execs(execs: &[Record], keys: &mut [u64], spare: &mut [u64])
    requires { (length execs.now ≤ length keys.old) × (length execs.now ≤ length spare.old) }
    ensures { ExecKeys execs.now keys.new }
{
    fill_exec_keys(execs, keys);
    sort_keys(&mut keys[..execs.len()], spare);
}

impl Execs<'_> {
    // Whether an X names the node and the port.
    pub fn targets(self, node: NodeId, port: u32) -> bool
        ensures { result ≡ any (λ e. eqb (field self.entry.records.now e 1) node.0 && eqb (field self.entry.records.now e 2) port) (upto (length self.entry.records.now)) }
    {
        let keys = &self.keys[..self.records.len()];
        keys.binary_search(&exec_key(node, port)).is_ok()
    }
}
