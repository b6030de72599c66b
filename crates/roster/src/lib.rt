// The roster: the peers that a fetch may ask, with their ratings and their shares of a draw.
#![tactic(auto)]

mod excluded;
mod join;
mod participants;
mod row;
mod weights;

pub use excluded::Excluded;
pub use participants::Participants;
pub use row::PeerRow;
pub use weights::Shares;
