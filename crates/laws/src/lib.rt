// Theorems on the definitions that the contracts of a fetcher cite.
#![tactic(auto)]

ghost use Rattle.model.specs.Fet.{Fet};
ghost use Rattle.laws.specs.Waiters.{WaiterStands};
ghost use Rattle.laws.specs.Weights.{WeightsStand};

use kinds::Ordered;
use score::Rating;

// After a new roster and after a new blocked list a peer weighs 0 exactly if it is the engine's own or blocked, else
// what its rating says; a record changes the row of its peer alone.
pub fn weights_stand<P: Ordered, V: Rating, K: Ordered>()
    ensures { WeightsStand K P.Ordered.own V.Rating }
{}

// Where a fetch sends nothing, the waiter is the least of the deadlines not due and the waits met, or without a wait,
// where a due key had an allowed peer, now plus the delay; with none, 2^63 - 1.
pub fn waiter_stands<P: Ordered, V: Rating, K: Ordered>()
    ensures { (f : Fet P V K) → WaiterStands P.Ordered.own K.Ordered.own f }
{}
