// What the programs print, as text whose bytes the contracts give.
#![tactic(auto)]

mod answers_text;
pub mod description;
mod door_calls;
pub mod door_text;
mod lines;
pub mod network_text;
pub mod reading;
mod replies;
mod rows_text;
pub mod study_sheet;
pub mod study_text;
