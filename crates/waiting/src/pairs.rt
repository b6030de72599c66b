// How many new pairs a list needs.
ghost use Rattle.std.specs.Prelude.{◌≡◌, Bool as Flag};
ghost use Rattle.waiting.specs.Calls.{Gives};
ghost use Rattle.waiting.specs.News.{among, new_of};

use kinds::Ordered;

// Whether a value is in a list. A function of its own: with `contains` in `count_new` the proof there did not close.
fn is_among<X: Ordered>(x: X, list: &[X]) -> bool
    ensures { result ≡ among X.Ordered.order x list.now }
{
    list.contains(&x)
}

// How many of a list are new, each counted once. A loop, since whether a value is new depends on those after it.
#[tactic(auto, unfolding(crate::specs::News::new_of))]
pub fn count_new<X: Ordered, F: Fn(&X) -> bool>(list: &[X], has: F) -> usize
    requires { F.IsAlwaysCallable has }
    ensures { (known : X → Flag) → Gives F.Fn known has → result ≡ new_of X.Ordered.order known list.now }
{
    let mut count = 0;
    let mut rest = list;
    while let Some((x, tail)) = rest.split_first() {
        if !has(x) && !is_among(*x, tail) {
            count += 1;
        }
        rest = tail;
    }
    count
}
