// Lists of a fixed length of which the first n places are live: how they are filled. specs/ says what a loop over the
// live places means, proofs/ has its laws.
#![tactic(auto)]

ghost use Rattle.std.specs.Prelude.{◌≡◌, ℕ, ◌≤◌};
ghost use Rattle.lists.specs.Loops.{tab};
ghost use Rattle.lists.specs.Calls.{MayMake, Makes};

// What `make` makes of each place below n, and `rest` at the others.
#[tactic(auto, using(crate::proofs::Fills::fills))]
pub fn filled<T: Copy, const M: usize, F: Fn(usize) -> T>(rest: T, n: usize, make: F) -> [T; M]
    requires room { n ≤ M }
    requires may { MayMake n (F.pre make) }
    ensures { (f : ℕ → T) → Makes n (F.post make) f → result ≡ tab M n rest f }
{
    let mut all = [rest; M];
    for k in 0..n {
        all[k] = make(k);
    }
    all
}
