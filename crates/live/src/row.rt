// The row of a live key.
ghost use Rattle.std.specs.Prelude.{◌≡◌};
ghost use Rattle.live.specs.Stages.{moved_to, retries_after, row_after};

use crate::stage::{Event, Stage};
use kinds::Ordered;
use tables::Row;

// `aimed` says that the key has a target set.
#[derive(Clone, Copy)]
pub struct KeyRow<K, P> {
    pub key: K,
    pub aimed: bool,
    pub retries: u32,
    pub stage: Stage<P>,
}

impl<K: Ordered, P: Copy> Row for KeyRow<K, P> {
    type Key = K;

    ghost key_of = { λ r. r.key };

    fn key(&self) -> K {
        self.key
    }
}

// The stage after an event, or none where the event is not one of that stage.
pub fn moved<P: Copy>(stage: Stage<P>, event: Event<P>) -> Option<Stage<P>>
    ensures { result ≡ moved_to stage event }
{
    match (stage, event) {
        (Stage::Queued { .. }, Event::Sent { id, peer, start }) => Some(Stage::Out {
            id,
            peer,
            start,
        }),
        (Stage::Out { .. }, Event::Returned { deadline }) => Some(Stage::Queued {
            retried: true,
            deadline,
        }),
        (Stage::Out { .. }, Event::Answered { slip }) => Some(Stage::Judged { slip }),
        (Stage::Judged { .. }, Event::Redelivered { slip }) => Some(Stage::Judged { slip }),
        (Stage::Judged { .. }, Event::Rejected { deadline }) => Some(Stage::Queued {
            retried: true,
            deadline,
        }),
        _ => None,
    }
}

// The retries after an event: one more where the key is queued again, up to 2^32 - 1.
fn retries_after<P: Copy>(retries: u32, event: Event<P>) -> u32
    ensures { result ≡ retries_after retries event }
{
    match event {
        Event::Returned { .. } | Event::Rejected { .. } => retries.saturating_add(1),
        _ => retries,
    }
}

// The row after an event, or none where the event is not one of its stage.
pub fn moved_row<K: Ordered, P: Copy>(row: KeyRow<K, P>, event: Event<P>) -> Option<KeyRow<K, P>>
    ensures { result ≡ row_after row event }
{
    let stage = moved(row.stage, event)?;
    Some(KeyRow {
        retries: retries_after(row.retries, event),
        stage,
        ..row
    })
}
