// The answers to what a tap asks for: of columns in its row of `asked`, of rows in its two flags behind those of the bricks.
ghost use Rattle.std.specs.Prelude.{◌≡◌};
ghost use Rattle.routes_taps.specs.Asking.{told_in};
ghost use Rattle.routes_emit.specs.Emitting.{AnswersRoom, told};

use base::rows::WorkRow;

// Which of a tap's rerouters are placed.
// Stays (no plainer): four questions, each with an answer of its own: columns answer the head's and the link's, rows the two others.
#[derive(Clone, Copy)]
pub struct Answers {
    pub head: bool,
    pub source: bool,
    pub link: bool,
    pub gate_side: bool,
}

// The answers of the k-th tap.
// Stays (no plainer): the answers of columns are numbers in the lent rows of questions, and the flags of rows are read beside them with the same test.
pub(crate) fn answers_at(asked: &[WorkRow], flags: &[u8], bricks: usize, k: usize) -> Answers
    requires { AnswersRoom asked.now flags.now bricks k }
    ensures { told result ≡ told_in asked.now flags.now bricks k }
{
    let item = bricks + 2 * k;
    Answers {
        head: asked[k][0] == 1,
        source: flags[item] == 1,
        link: asked[k][1] == 1,
        gate_side: flags[item + 1] == 1,
    }
}
