//! Laws of packet framing, stated as contracts of empty functions.

ghost use Rattle.std.specs.Prelude.{◌≡◌, ℕ, List, ◌++◌, ◌↔◌};
ghost use Rattle.std.specs.List.{AllByRecursion, flat_map};
ghost use Rattle.sf_wire.specs.declared.cutting.Cut.{Cut};
ghost use Rattle.sf_field.specs.Fields.{AreBytes, packet};
ghost use Rattle.sf_wire.specs.Packets.{IsBody, IsCut, End, Cuts};
ghost use Rattle.sf_wire.specs.Streams.{CutsAfter, IsSpelled, Stays, GrowsTo};

/// No packet is a proper prefix of another.
pub fn one_packet()
    ensures { (a b x y : List ℕ) → IsBody a → IsBody b → packet a ++ x ≡ packet b ++ y → (a ≡ b)
        × (x ≡ y) }
{}

/// Every byte stream has exactly one framing.
pub fn one_cutting()
    ensures exists { (bytes : List ℕ) → AreBytes bytes → (bodies : List (List ℕ)) × (end : End)
        × Cuts bytes bodies end }
    ensures unique { (bytes : List ℕ) (bodies others : List (List ℕ)) (end other : End)
        → Cuts bytes bodies end → Cuts bytes others other
        → (bodies ≡ others) × (end ≡ other) }
{}

/// A framing is a decomposition of the stream into packets and an end.
pub fn cut_is_spelled()
    ensures { (bytes : List ℕ) (bodies : List (List ℕ)) (end : End) → Cuts bytes bodies end
        ↔ IsSpelled bytes bodies end }
{}

/// Framing proceeds packet by packet, from the start of the stream.
pub fn cut_by_packets()
    ensures { (bytes : List ℕ) (found : Cut) → IsCut bytes found
        → (bodies : List (List ℕ)) (end : End) → Cuts bytes bodies end
        ↔ CutsAfter bytes found bodies end }
{}

/// The framing of a stream is its first packets, followed by the framing of the remaining bytes.
pub fn cut_after_packets()
    ensures there { (taken : List (List ℕ)) (left : List ℕ) → AllByRecursion IsBody taken
        → (bodies : List (List ℕ)) (end : End) → Cuts left bodies end
        → Cuts (flat_map packet taken ++ left) (taken ++ bodies) end }
    ensures back { (taken : List (List ℕ)) (left : List ℕ) → AllByRecursion IsBody taken
        → (all : List (List ℕ)) (end : End) → Cuts (flat_map packet taken ++ left) all end
        → (bodies : List (List ℕ)) × (all ≡ taken ++ bodies) × Cuts left bodies end }
{}

/// The framing of a stream to which bytes are appended.
pub fn cut_in_pieces()
    ensures stays { (bytes : List ℕ) (found : Cut) → IsCut bytes found → Stays bytes found }
    ensures grows { (bytes more : List ℕ) (bodies others : List (List ℕ)) (end last : End)
        → Cuts bytes bodies end → GrowsTo end more others last
        → Cuts (bytes ++ more) (bodies ++ others) last }
{}
