// Places in a text, for messages: its pieces one after another, and where one of them stands.
#![tactic(auto)]

mod cuts;
mod located;
mod places;

pub use cuts::{Cuts, Cutting, pieces_of};
pub use located::{Located, locate};
pub use places::{from_argument, from_item, from_piece, offset, past_pieces};
