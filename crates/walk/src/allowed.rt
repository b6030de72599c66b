// The peers that a key may be asked of.
ghost use Rattle.std.specs.Prelude.{◌≡◌, length};
ghost use Rattle.tables.specs.Tables.{tab_of};
ghost use Rattle.model.specs.Tries.{stays, left_out, rows_for};
ghost use Rattle.model.specs.Fetches.{aims};

use draw::Share;
use kinds::Ordered;
use live::QueueRow;
use roster::PeerRow;
use score::Rating;
use trackers::Targets;

// Whether a row stays in the draw for a key: it weighs nothing anyway, or its peer is a target.
fn is_kept<P: Ordered, V: Rating, K: Ordered>(
    share: Share,
    row: &PeerRow<P, V>,
    targets: &Targets<K, P>,
    key: K,
) -> bool
    ensures { result ≡ stays (aims P.Ordered.own K.Ordered.own (tab_of targets.now.table).rows key) row.now share }
{
    share.weight == 0 || targets.contains(key, row.peer)
}

// Sets the share of each peer aside that is no target of a key. By index: the port goes over the allowed peers with their
// places.
fn leave_out<P: Ordered, V: Rating, K: Ordered>(
    shares: &mut [Share],
    peers: &[PeerRow<P, V>],
    targets: &Targets<K, P>,
    key: K,
)
    requires { length peers.now ≡ length shares.old }
    ensures { shares.new ≡ left_out (aims P.Ordered.own K.Ordered.own (tab_of targets.now.table).rows key) peers.now 0 shares.old }
{
    for (i, row) in peers.iter().enumerate() {
        if !is_kept(shares[i], row, targets, key) {
            shares[i].aside = true;
        }
    }
}

// Leaves the shares that a key may draw from: its targets' if it is aimed, else all. There is a share for each peer,
// which the roster's type keeps: the walk takes its two lists apart, since the draw borrows the shares alone.
pub fn allow<P: Ordered, V: Rating, K: Ordered>(
    shares: &mut [Share],
    peers: &[PeerRow<P, V>],
    targets: &Targets<K, P>,
    row: &QueueRow<K>,
)
    requires { length peers.now ≡ length shares.old }
    ensures { shares.new ≡ rows_for row.now.aimed (aims P.Ordered.own K.Ordered.own (tab_of targets.now.table).rows row.now.key) peers.now shares.old }
{
    if row.aimed {
        leave_out(shares, peers, targets, row.key);
    }
}
