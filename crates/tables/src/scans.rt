// What is found by going over rows.
ghost use Rattle.std.specs.Prelude.{◌≡◌, Bool as Flag, Option as Maybe};
ghost use Rattle.std.specs.Fn.{ComputesKey, ComputesOnPairs};
ghost use Rattle.tables.specs.Scans.{first_of, better, best_of};

// What is found in the first row in which something is found.
pub fn first<R, A, F: FnMut(&R) -> Option<A>>(rows: &[R], find: F) -> Option<A>
    requires { F.IsAlwaysCallable find }
    ensures { (f : R → Maybe A) → ComputesKey F.FnMut f find → result ≡ first_of f rows.now }
{
    // Not `find_map`: tried, and its clauses let it answer `None` before the end where the closure changes with a call.
    rows.iter().filter_map(find).next()
}

// The one of two that comes first; the older one where neither does.
#[tactic(auto, using(crate::proofs::Choices::computes_on, crate::proofs::Choices::newer, crate::proofs::Choices::older))]
fn better<A: Copy, C: FnMut(&A, &A) -> bool>(
    best: Option<A>,
    next: Option<A>,
    ahead: &mut C,
) -> Option<A>
    requires { C.IsAlwaysCallable ahead.old }
    ensures callable { C.IsAlwaysCallable ahead.new }
    ensures computes { (p : A → A → Flag) → ComputesOnPairs C.FnMut p ahead.old → ComputesOnPairs C.FnMut p ahead.new }
    ensures better { (p : A → A → Flag) → ComputesOnPairs C.FnMut p ahead.old → result ≡ better p best next }
{
    match (best, next) {
        (Some(b), Some(a)) => if ahead(&a, &b) { Some(a) } else { Some(b) },
        (b, a) => a.or(b),
    }
}

// The one of those found in the rows that comes first; of two where neither does, the older one. A loop and no `fold`, whose
// closure would have to call both closures and change with them.
pub fn best<R, A: Copy, F: FnMut(&R) -> Option<A>, C: FnMut(&A, &A) -> bool>(
    rows: &[R],
    mut find: F,
    mut ahead: C,
) -> Option<A>
    requires find { F.IsAlwaysCallable find }
    requires ahead { C.IsAlwaysCallable ahead }
    ensures { (f : R → Maybe A) (p : A → A → Flag) → ComputesKey F.FnMut f find → ComputesOnPairs C.FnMut p ahead → result ≡ best_of p f rows.now }
{
    let mut best = None;
    for row in rows {
        best = better(best, find(row), &mut ahead);
    }
    best
}
