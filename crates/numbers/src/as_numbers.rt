// Equality as numbers, which a derive gives: −0 equals +0, and a NaN equals nothing.
ghost use Rattle.std.specs.Prelude.{◌≡◌, Bool};

// A type whose == answers what a definition of specs/ says.
pub trait EqualAsNumbers: PartialEq {
    ghost equality: { Self → Self → Bool };

    ghost is_equality: { (a b : Self) → Self.eq a b ≡ equality a b };
}
