// How a table changes.
ghost use Rattle.std.specs.Prelude.{◌≡◌, ◌<◌, [], ◌∷◌, ◌++◌, length};
ghost use Rattle.search.specs.Search.{room};
ghost use Rattle.search.specs.Tables.{rows_of, barred_at};

use crate::row::Row;
use crate::table::Table;
use sets::set::NodeSet;

impl Table {
    /// A table without rows.
    pub fn empty() -> Table
        ensures { rows_of result ≡ [] }
    {
        Table {
            rows: [Row {
                inside: NodeSet::new(),
                barred: NodeSet::new(),
            }; 512],
            count: 0,
        }
    }

    /// Removes all rows.
    pub fn clear(&mut self)
        ensures { rows_of self.new ≡ [] }
    {
        self.count = 0;
    }

    /// Removes all rows and writes this one.
    pub fn begin(&mut self, row: Row)
        ensures { rows_of self.new ≡ row ∷ [] }
    {
        self.clear();
        self.push(row);
    }

    // One row more, after the others.
    pub(crate) fn push(&mut self, row: Row)
        requires { length (rows_of self.old) < room }
        ensures { rows_of self.new ≡ rows_of self.old ++ (row ∷ []) }
    {
        let at = self.count;
        self.rows[at] = row;
        self.count = at + 1;
    }

    // Node v joins the barred set of row k, and of no other.
    pub(crate) fn bar(&mut self, k: usize, v: u32)
        requires { k < length (rows_of self.old) }
        ensures { rows_of self.new ≡ barred_at k v (rows_of self.old) }
    {
        self.rows[k].barred.insert(v);
    }
}
