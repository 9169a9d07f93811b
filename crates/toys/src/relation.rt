// Which steps of one byte are independent.
ghost use Rattle.std.specs.Prelude.{◌≡◌, ℕ, Bool, IsTrue, IsFalse};

// A relation between steps that holds both ways round, and never between a step and itself.
pub trait Relation {
    ghost apart: { ℕ → ℕ → Bool };

    // May the two steps follow each other in either order?
    fn apart(&self, a: u8, b: u8) -> bool
        ensures { result ≡ apart a b };

    ghost symmetric: { (a b : ℕ) → IsTrue (apart a b) → IsTrue (apart b a) };

    ghost irreflexive: { (a : ℕ) → IsFalse (apart a a) };
}
