//! What the cuts of an expression are to the expression and to the points that are listed of it. Nothing here runs.

ghost use Rattle.std.specs.Prelude.{◌≡◌, ◌+◌, ◌<◌, ℕ, List, length};
ghost use Rattle.pr_lang.specs.declared.trees.Fixed.{Fixed};
ghost use Rattle.pr_lang.specs.declared.trees.Expr.{Expr};
ghost use Rattle.pr_lang.specs.Shape.{fixed_shape, expr_shape};
ghost use Rattle.pr_lens_items.specs.Walks.{fixed_walk, expr_walk};
ghost use Rattle.pr_lens_items.specs.Cuts.{points, cut_off, fixed_part, expr_part};

/// An expression that is cut off behind all its points is left whole.
pub fn whole_law()
    ensures fixed { (value : Fixed) (from : ℕ) → points (fixed_part value) < from →
        cut_off (fixed_part value) from ≡ fixed_shape value }
    ensures expression { (value : Expr) (from : ℕ) → points (expr_part value) < from →
        cut_off (expr_part value) from ≡ expr_shape value }
{}

/// An expression has as many points as are listed of it.
pub fn points_law()
    ensures fixed { (value : Fixed) (at : ℕ) (seen : List ℕ) →
        length ((fixed_walk value).points at seen) ≡ length seen + points (fixed_part value) }
    ensures expression { (value : Expr) (at : ℕ) (seen : List ℕ) →
        length ((expr_walk value).points at seen) ≡ length seen + points (expr_part value) }
{}
