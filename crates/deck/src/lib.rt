// Card decks: the text form of a network with its head, its marks and its doors.
#![tactic(auto)]

mod card;
pub mod doors;
mod draft;
mod line;
mod operands;
pub mod reader;
mod words;
