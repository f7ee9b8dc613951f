//! Laws of configurations. The functions do nothing.

ghost use Rattle.std.specs.Prelude.{ℕ, ◌≡◌, ◌++◌, [], List, length};
ghost use Rattle.pr_conf.specs.Shape.{Shape};
ghost use Rattle.pr_conf.specs.Rules.{IsLawful};
ghost use Rattle.pr_conf.specs.Through.{results_of};
ghost use Rattle.pr_conf.specs.After.{conf_after};

/// A configuration after some samples is a configuration of the same fabric. It makes of further samples what the first
/// one makes of them behind these samples. N and P are the columns and registers of the fabric.
pub fn after_law()
    ensures lawful { (N P : ℕ) (c : Shape) (xs : List (List ℕ)) → IsLawful N P c → IsLawful N P (conf_after N P c xs) }
    ensures results { (N P : ℕ) (c : Shape) (xs ys : List (List ℕ))
        → results_of N P c (xs ++ ys) ≡ results_of N P c xs ++ results_of N P (conf_after N P c xs) ys }
    ensures none { (N P : ℕ) (c : Shape) → conf_after N P c [] ≡ c }
    ensures further { (N P : ℕ) (c : Shape) (xs ys : List (List ℕ))
        → conf_after N P (conf_after N P c xs) ys ≡ conf_after N P c (xs ++ ys) }
    ensures inputs { (N P : ℕ) (c : Shape) (xs : List (List ℕ)) → (conf_after N P c xs).inputs ≡ c.inputs }
    ensures outputs { (N P : ℕ) (c : Shape) (xs : List (List ℕ)) → (conf_after N P c xs).outputs ≡ c.outputs }
    ensures stages { (N P : ℕ) (c : Shape) (xs : List (List ℕ))
        → length (conf_after N P c xs).stages ≡ length c.stages }
{}
