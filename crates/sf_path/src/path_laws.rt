//! Laws of paths, stated as contracts of empty functions.

ghost use Rattle.std.specs.Prelude.{◌≡◌, ℕ, ◌∷◌, List, length, nat_lt, ◌==◌, if◌then◌else◌, Some, None};
ghost use Rattle.sf_path.specs.declared.fault.PathFault.{PathFault};
ghost use Rattle.sf_path.specs.declared.fault.PathFault.TheVariants.{TooLong};
ghost use Rattle.sf_path.specs.Names.{IsPath, slash, text_of};
ghost use Rattle.sf_path.specs.Normal.{norm, fault_of};

/// Parsing the text of a path yields that path. The only possible fault is `TooLong`.
pub fn normal_text_again()
    ensures path { (names : List (List ℕ)) → IsPath names → norm (text_of names) ≡ names }
    ensures fault { (names : List (List ℕ)) → IsPath names
        → fault_of (text_of names)
        ≡ (if nat_lt 4096 (length (text_of names)) then Some TooLong else None) }
{}

/// A slash prepended to a text doesn't change its path. It changes the fault only of a text of 4096
/// bytes, which becomes too long.
pub fn slash_before()
    ensures path { (text : List ℕ) → norm (slash ∷ text) ≡ norm text }
    ensures fault { (text : List ℕ)
        → fault_of (slash ∷ text) ≡ (if length text == 4096 then Some TooLong else fault_of text) }
{}
