//! Laws of lock coupling: the steps that preserve its invariant.

ghost use Rattle.std.specs.Prelude.{◌≡◌, ◌≢◌, ℕ, List, [], ◌∷◌};
ghost use Rattle.sf_coupling.specs.Stepping.{IsFrom, TakesPath};
ghost use Rattle.sf_coupling.specs.Walks.{HeldPath, Holds, HandsOver, IsFree, LeadsTo, Walkers, AreWalks, HoldsOthers};

/// Mutual exclusion: two calls never hold one inode.
#[tactic(auto, using(crate::proofs::Laws::held_by_one))]
pub fn held_once()
    ensures { (s : Walkers) → AreWalks s → (n m : ℕ) (a b : HeldPath) → Holds (s.held_paths n) a
        → Holds (s.held_paths m) b → a.node ≡ b.node → n ≡ m }
{}

/// A change of one call preserves the invariant if it spares what the others hold.
#[tactic(auto, using(crate::proofs::Laws::keeps_walks))]
pub fn walks_kept()
    ensures { (old new : Walkers) (n : ℕ) → AreWalks old → HoldsOthers old new n → AreWalks new }
{}

/// A step to a free directory preserves the invariant: to the root, or to an entry of a held
/// directory.
#[tactic(auto, using(crate::proofs::Laws::step_keeps))]
pub fn steps_kept()
    ensures { (s new : Walkers) (n : ℕ) (q : HeldPath) → AreWalks s → new.namespace ≡ s.namespace
        → IsFree s.holder n q.node → LeadsTo s.namespace q
        → TakesPath q (s.held_paths n) (new.held_paths n)
        → ((m : ℕ) → n ≢ m → new.held_paths m ≡ s.held_paths m)
        → HandsOver s.holder new.holder n (s.held_paths n) (new.held_paths n) → AreWalks new }
{}

/// A call may release all that it holds.
#[tactic(auto, using(crate::proofs::Laws::let_go_keeps))]
pub fn let_go_kept()
    ensures { (s new : Walkers) (n : ℕ) → AreWalks s → new.namespace ≡ s.namespace
        → new.held_paths n ≡ [] → ((m : ℕ) → n ≢ m → new.held_paths m ≡ s.held_paths m)
        → HandsOver s.holder new.holder n (s.held_paths n) [] → AreWalks new }
{}

/// If the next directory of a call is held by another call, it is the first one that the other
/// holds. So the call waits above all that the other holds.
pub fn waits_above()
    ensures { (s : Walkers) → AreWalks s → (n m : ℕ) → n ≢ m → (held_path : HeldPath)
        → IsFrom (s.held_paths n) held_path → (top : HeldPath) (ends : List HeldPath)
        → s.held_paths m ≡ top ∷ ends → Holds (top ∷ ends) held_path → held_path.path ≡ top.path }
{}
