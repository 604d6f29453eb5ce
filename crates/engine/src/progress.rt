// What an advance answers.
use search::status::Status;

/// The tries made in this call, the rows then written, and how the search stands.
#[derive(Clone, Copy, Debug, PartialEq, Eq)]
pub struct Progress {
    pub tries: u32,
    pub rows: usize,
    pub status: Status,
}
