// What a table answers.
ghost use Rattle.std.specs.Prelude.{◌≡◌, length, nat_le};
ghost use Rattle.std.specs.List.{slice_get};
ghost use Rattle.search.specs.Search.{room};
ghost use Rattle.search.specs.Tables.{rows_of};

use crate::row::Row;
use crate::table::Table;

impl Table {
    /// How many rows are written.
    pub fn len(&self) -> usize
        ensures { result ≡ length (rows_of self.now) }
    {
        self.count
    }

    /// Row k; a number at or past the count has no row.
    pub fn row(&self, k: usize) -> Option<Row>
        ensures { result ≡ slice_get (rows_of self.now) k }
    {
        self.rows().get(k).copied()
    }

    /// The rows, in the order in which they were written.
    pub fn rows(&self) -> &[Row]
        ensures { result.now ≡ rows_of self.now }
    {
        let rows = &self.rows[..];
        &rows[..self.len()]
    }

    // Whether there is no room for another row.
    pub(crate) fn is_full(&self) -> bool
        ensures { result ≡ nat_le room (length (rows_of self.now)) }
    {
        self.len() >= 512
    }
}
