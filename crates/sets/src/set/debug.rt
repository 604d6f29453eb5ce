// A set in words, as `{0, 2}`.
use crate::set::Set;
use crate::width::Width;
use std::fmt;

// Stays by hand: a derive would print the word and not the members; neither promises its text.
impl<W: Width> fmt::Debug for Set<W> {
    fn fmt<F: fmt::Write>(&self, f: &mut fmt::Formatter<F>) -> fmt::Result {
        f.debug_set().entries(*self).finish()
    }
}
