// Lanes to the stations from 0 to 255.
ghost use Rattle.std.specs.Prelude.{◌≡◌, ◌≤◌, length};
ghost use Rattle.link.specs.Lanes.{InTime, most_spacing};

use crate::lane::Lane;
use crate::tally::Tally;
use kinds::Station;

// The lanes, the spacing between two messages on a lane, and what was taken.
#[derive(Drop)]
pub struct Lanes<K> {
    pub(crate) lanes: [Lane; 256],
    pub(crate) spacing: u64,
    pub(crate) tally: Tally<Station, K>,
    ghost all: { length lanes ≡ 256 },
    ghost timely: { InTime lanes },
    ghost short: { spacing ≤ most_spacing },
}
