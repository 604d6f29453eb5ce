// How a search stands.
ghost use Rattle.std.specs.Prelude.{Some};
ghost use Rattle.search.specs.Words.{status_word};

use std::fmt;

#[derive(Clone, Copy, Debug, PartialEq, Eq)]
pub enum Status {
    /// No row has a candidate.
    Finished,
    /// The next try would write a row, and there is no room for one.
    Full,
    /// A try can be made.
    More,
}

// The status in a word: FINISHED, FULL or MORE.
impl fmt::Display for Status {
    ghost output = { λ status. Some (status_word status) };

    fn fmt<W: fmt::Write>(&self, f: &mut fmt::Formatter<W>) -> fmt::Result {
        f.write_str(match *self {
            Status::Finished => "FINISHED",
            Status::Full => "FULL",
            Status::More => "MORE",
        })
    }
}
