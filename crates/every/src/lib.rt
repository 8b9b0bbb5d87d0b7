// Whether a test holds of every number below a bound.
#![tactic(auto)]

ghost use Rattle.std.specs.Prelude.{◌≡◌, ℕ, ◌<◌, Bool};
ghost use Rattle.layout.specs.Fit.{all_below};

// The loop has no early exit, as `all` of an iterator has, so that the compiler can make vector instructions of it.
pub fn all_below<F: Fn(usize) -> bool>(n: usize, test: F) -> bool
    requires { (i : ℕ) → i < n → F.pre test i }
    ensures { (p : ℕ → Bool) → ((i : ℕ) → i < n → (b : Bool) → F.post test i b → b ≡ p i) → result ≡ all_below n p }
{
    let mut ok = true;
    for i in 0..n {
        ok &= test(i);
    }
    ok
}
