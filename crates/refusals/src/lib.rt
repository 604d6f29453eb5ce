// Why a call is refused: one enum for each layer, a lower fault held by the one above, and what a caller is told of each.
#![tactic(auto)]

pub mod deck_fault;
pub mod layer;
pub mod network_fault;
pub mod study_fault;
pub mod wide_refusal;
