// The parts of a network, and a row of the table from which a caller's network is made.
ghost use Rattle.std.specs.Prelude.{◌≡◌, [], ◌∷◌, Some};
ghost use Rattle.network.specs.Ratings.{checked_rating};
ghost use Rattle.network.specs.Meaning.{branch_of, blank_row, letter, branch_text};

use crate::rating::Rating;
use std::fmt;

/// Whether a branch can fail.
#[derive(Clone, Copy, Debug, PartialEq, Eq)]
pub enum Condition {
    /// Able to fail.
    Able,
    /// Failed, so absent.
    Failed,
    /// Working: present and unable to fail.
    Working,
}

// The condition's letter: A, F or W.
impl fmt::Display for Condition {
    ghost output = { λ condition. Some (letter condition ∷ []) };

    fn fmt<W: fmt::Write>(&self, f: &mut fmt::Formatter<W>) -> fmt::Result {
        f.write_str(match *self {
            Condition::Able => "A",
            Condition::Failed => "F",
            Condition::Working => "W",
        })
    }
}

/// A branch by its two ends, which may be the same node.
#[derive(Clone, Copy, Debug, PartialEq, Eq)]
pub struct Branch {
    pub from: u32,
    pub to: u32,
    pub condition: Condition,
}

// Both ends and the letter of the condition, as `0 1 A`.
impl fmt::Display for Branch {
    ghost output = { λ branch. Some (branch_text branch) };

    fn fmt<W: fmt::Write>(&self, f: &mut fmt::Formatter<W>) -> fmt::Result {
        write!(f, "{} {} {}", self.from, self.to, self.condition)
    }
}

/// A row of a caller's table: a branch and the two numbers of its rating, not yet checked.
#[derive(Clone, Copy, Debug, PartialEq, Eq)]
pub struct TableRow {
    pub from: u32,
    pub to: u32,
    pub mantissa: u32,
    pub exponent: u32,
    pub condition: Condition,
}

// Stays by hand: a derived default would have exponent 0, which is in no rating.
impl Default for TableRow {
    ghost is_default = { λ row. row ≡ blank_row };

    fn default() -> TableRow {
        TableRow::BLANK
    }
}

impl TableRow {
    /// Stands in places of a table that hold no branch yet.
    // Stays beside `Default`, which answers it: a public name.
    pub const BLANK: TableRow = TableRow {
        from: 0,
        to: 0,
        mantissa: 0,
        exponent: 9,
        condition: Condition::Able,
    };

    /// The rating, where its numbers are legal.
    pub fn rating(&self) -> Option<Rating>
        ensures { result ≡ checked_rating self.now.mantissa self.now.exponent }
    {
        Rating::new(self.mantissa, self.exponent)
    }

    /// The branch without its rating.
    // Stays a method: it takes a part of the row, where a conversion would say that the two are one thing.
    pub fn branch(&self) -> Branch
        ensures { result ≡ branch_of self.now }
    {
        Branch {
            from: self.from,
            to: self.to,
            condition: self.condition,
        }
    }
}
