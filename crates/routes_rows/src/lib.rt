// The cells booked on a row: a lent slice of cells, one row of a page after the other. `book` books what is asked for; `turn` decides the corners, by the
// ends of levels that cells block (`blocked`), the cells booked before an item (`standing`), what is noted of the row (`notes`) and how many corners stand at
// a level (`loads`).
#![tactic(auto)]

pub mod blocked;
pub mod book;
pub mod loads;
pub mod notes;
pub mod standing;
pub mod turn;
