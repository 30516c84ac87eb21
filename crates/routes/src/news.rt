// What a laid tap begins: it is compared with the one before it.
ghost use Rattle.std.specs.Prelude.{◌≡◌, [], ◌<◌, length, get_or};
ghost use Rattle.base.specs.Views.{view};
ghost use Rattle.board.specs.Tables.{tap_in};
ghost use Rattle.routes.specs.News.{begins_group, begins_row, begins_column, NewsOf};

use base::rows::WorkRow;

// What begins with a tap: a group begins a row too, and a row a column.
#[derive(Clone, Copy)]
pub enum News {
    Nothing,
    Column,
    Row,
    Group,
}

impl News {
    // Whether a group begins.
    pub fn begins_group(self) -> bool
        ensures { result ≡ begins_group self }
    {
        matches!(self, News::Group)
    }

    // Whether a row begins.
    pub fn begins_row(self) -> bool
        ensures { result ≡ begins_row self }
    {
        matches!(self, News::Group | News::Row)
    }

    // Whether a column of the row begins.
    pub fn begins_column(self) -> bool
        ensures { result ≡ begins_column self }
    {
        !matches!(self, News::Nothing)
    }
}

// What the k-th of the laid taps begins.
pub fn news_at(laid: &[WorkRow], k: usize) -> News
    requires { k < length laid.now }
    ensures { NewsOf (view tap_in laid.now k) (tap_in (get_or laid.now k [])) result }
{
    if k == 0 || laid[k - 1][1] != laid[k][1] {
        return News::Group;
    }
    let j = k - 1;
    if laid[j][2] != laid[k][2] {
        News::Row
    } else if laid[j][3] != laid[k][3] {
        News::Column
    } else {
        News::Nothing
    }
}
