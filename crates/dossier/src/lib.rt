// The calls on a lent store: any bytes, of any length. A file for each call.
#![tactic(auto)]

mod deleting;
mod inserting;
mod updating;
mod viewing;

pub use deleting::delete;
pub use inserting::insert;
pub use updating::update;
pub use viewing::view;
