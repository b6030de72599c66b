// Kinds that have a total order.
ghost use Rattle.std.specs.Prelude.{◌≡◌};
ghost use Rattle.std.specs.declared.cmp.Ordering.TheVariants.{Equal};
ghost use Rattle.std.specs.declared.cmp.Ordering.{Ordering};
ghost use Rattle.std.specs.Ordering.{is_eq};

// A kind whose comparisons follow an order. It is total, as every `Ord` is: a value equals itself, turning the
// comparison round reverses it, and less carries over from two steps to one. Equal are only the same values.
pub trait Ordered: Copy + Ord {
    ghost order: { Self → Self → Ordering };

    ghost compares: { (x y : Self) → Self.cmp x y ≡ order x y };

    ghost equals: { (x y : Self) → Self.eq x y ≡ is_eq (order x y) };

    ghost same: { (x y : Self) → Self.cmp x y ≡ Equal → x ≡ y };
}
