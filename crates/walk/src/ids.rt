// The id of a send.
ghost use Rattle.std.specs.Prelude.{◌≡◌, false as no};
ghost use Rattle.tables.specs.Tables.{tab_of};
ghost use Rattle.live.specs.Requests.{id_out};
ghost use Rattle.model.specs.Ids.{free_id, id_of, next_of, words_of};

use draw::DrawSource;
use kinds::Ordered;
use live::LiveKeys;

// The first id from `id` on that is not out. Ids go up by one and wrap, as in the port.
fn free_id<K: Ordered, P: Ordered>(keys: &LiveKeys<K, P>, id: u64) -> u64
    ensures value { result ≡ free_id (tab_of keys.now.table).rows id }
    ensures unused { id_out result (tab_of keys.now.table).rows ≡ no }
{
    let mut free = id;
    while keys.is_out(free) {
        free = free.wrapping_add(1);
    }
    free
}

// The id of the next send: at the very first the next word, then one more each time; an id still out is passed over.
pub fn take_id<K: Ordered, P: Ordered, D: DrawSource>(
    keys: &LiveKeys<K, P>,
    next: &mut Option<u64>,
    source: &mut D,
) -> u64
    ensures value { result ≡ id_of (tab_of keys.now.table).rows next.old (D.DrawSource.ahead source.old) }
    ensures unused { id_out result (tab_of keys.now.table).rows ≡ no }
    ensures next { next.new ≡ next_of (tab_of keys.now.table).rows next.old (D.DrawSource.ahead source.old) }
    ensures words { D.DrawSource.ahead source.new ≡ words_of next.old (D.DrawSource.ahead source.old) }
{
    // A match: what the words ahead then are is not shown where a closure takes the word.
    let first = match *next {
        Some(id) => id,
        None => source.word(),
    };
    let id = free_id(keys, first);
    *next = Some(id.wrapping_add(1));
    id
}
