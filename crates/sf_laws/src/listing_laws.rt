//! Laws of directory listings.

ghost use Rattle.std.specs.Prelude.{◌≡◌, ℕ, true, [], ◌∷◌, ◌++◌, length, Some, Option, ◌⊎◌};
ghost use Rattle.sf_path.specs.Names.{Name, Path};
ghost use Rattle.sf_call.specs.Tree.{Tree, IsOrderedTree, label_at, object_of, links};
ghost use Rattle.sf_call.specs.Listings.{entry_of, is_past, listing, names_of};
ghost use Rattle.std.specs.List.{AllByRecursion, Contains};
ghost use Rattle.std.specs.Ordering.{is_lt};
ghost use Rattle.sf_call.specs.declared.limits.TheConstants.{MAX_ENTRIES};
ghost use Rattle.std.specs.List.Sorted.{IsStrictlySortedBy};
ghost use Rattle.sf_path.specs.Order.{name_cmp};
ghost use Rattle.sf_call.specs.Attributes.{Object};
ghost use Rattle.sf_call.specs.Histories.{after};

/// The names of a listing are in byte order, without duplicates, and follow the last one that was
/// listed.
pub fn listed_in_order()
    ensures order { (tree : Tree) (last : Option Name) (directory : Path) → IsOrderedTree tree
        → IsStrictlySortedBy name_cmp (names_of (listing tree last directory)) }
    ensures past { (tree : Tree) (last : Option Name) (directory : Path)
        → AllByRecursion (λ name. is_past last name
        ≡ true) (names_of (listing tree last directory)) }
{}

/// A listing is complete and correct. Each entry after the last listed name is in it, unless the
/// listing is full of smaller names. Each listed entry exists, with these attributes.
pub fn listed_all()
    ensures complete { (tree : Tree) (last : Option Name) (directory : Path) (name : Name)
        (label : ℕ) (object : Object) → IsOrderedTree tree
        → label_at tree.names (directory ++ name ∷ []) ≡ Some label
        → object_of tree.objects label ≡ Some object → is_past last name ≡ true
        → Contains (listing tree last directory) (entry_of name (links tree.names label) object)
        ⊎ ((length (listing tree last directory) ≡ MAX_ENTRIES)
        × AllByRecursion (λ listed. is_lt (name_cmp listed name)
        ≡ true) (names_of (listing tree last directory))) }
    ensures there { (tree : Tree) (last : Option Name) (directory : Path) → IsOrderedTree tree
        → AllByRecursion (λ entry. (label : ℕ) × (object : Object)
        × (label_at tree.names (directory ++ entry.filename ∷ []) ≡ Some label)
        × (object_of tree.objects label ≡ Some object)
        × (entry ≡ entry_of entry.filename (links tree.names label) object))
        (listing tree last directory) }
{}
