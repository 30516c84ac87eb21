// A board's sections, in rows that stand one section after the other.
ghost use Rattle.std.specs.Prelude.{◌≡◌};
ghost use Rattle.board.specs.Board.{Board};
ghost use Rattle.board.specs.Walk.{counts_in};
ghost use Rattle.board.specs.Accepted.{Accepted};
ghost use Rattle.board.specs.Sections.{SectionsIn, SectionsCut};

use base::rows::Record;
use sheet::Counts;

// The records of each section.
// Stays (no plainer): no limit stands in it: what lays routes needs none of it, and what groups taps names the section and its limit that it needs.
#[derive(Clone, Copy)]
pub struct Sections<'a> {
    pub pages: &'a [Record],
    pub nodes: &'a [Record],
    pub chips: &'a [Record],
    pub inner: &'a [Record],
    pub execs: &'a [Record],
    pub wires: &'a [Record],
}

// The rows cut into sections, by how many records each has.
pub fn cut_sections<'a>(records: &'a [Record], counts: Counts) -> Sections<'a>
    requires { (b : Board) × SectionsIn b records.now × (counts ≡ counts_in b) × Accepted b }
    ensures { (b : Board) → SectionsIn b records.now → counts ≡ counts_in b → Accepted b
        → SectionsCut b result.pages.now result.nodes.now result.chips.now result.inner.now result.execs.now result.wires.now }
{
    let nodes = counts.pages;
    let chips = nodes + counts.nodes;
    let inner = chips + counts.chips;
    let execs = inner + counts.inner;
    let wires = execs + counts.execs;
    let end = wires + counts.wires;
    Sections {
        pages: &records[..nodes],
        nodes: &records[nodes..chips],
        chips: &records[chips..inner],
        inner: &records[inner..execs],
        execs: &records[execs..wires],
        wires: &records[wires..end],
    }
}
