// What follows from the definition of the check, and from the laws of every layout. These functions do
// nothing.

ghost use Rattle.std.specs.Prelude.{◌≡◌, ◌++◌, ℕ, List, [], Some, Ok, Err};
ghost use Rattle.std.specs.List.{AllByRecursion, concat};
ghost use Rattle.octets.specs.Check.{HoldsCheck};
ghost use Rattle.octets.specs.Check.{DiffersInBurst, DiffersInTwoOctets};
ghost use Rattle.octets.specs.Number.{IsOctets};
ghost use Rattle.octets.specs.Records.{IsSplit, first_record, records_of, rest_of};

use crate::wire::Wire;

/// Detects every burst error of at most 16 bits. If two lists of octets differ only within 16 neighbouring
/// bits, or within two neighbouring octets, at most one of them ends with its FECF.
pub fn law_of_damage()
    ensures octets { (xs ys : List ℕ) → IsOctets xs → IsOctets ys → DiffersInTwoOctets xs ys
        → HoldsCheck xs → HoldsCheck ys → xs ≡ ys }
    ensures burst { (xs ys : List ℕ) → IsOctets xs → IsOctets ys → DiffersInBurst xs ys
        → HoldsCheck xs → HoldsCheck ys → xs ≡ ys }
{}

/// A stream is its records and a rest in exactly one way.
pub fn law_of_records<W: Wire>()
    ensures found { (stream : List ℕ)
        → IsSplit W.HEAD W.extent_of stream
        (records_of W.HEAD W.extent_of stream)
        (rest_of W.HEAD W.extent_of stream) }
    ensures only { (stream rest : List ℕ) (records : List (List ℕ))
        → IsSplit W.HEAD W.extent_of stream records rest
        → (records ≡ records_of W.HEAD W.extent_of stream)
        × (rest ≡ rest_of W.HEAD W.extent_of stream) }
{}

/// Any cutting of a stream yields the same records: the records of two pieces are those of the first piece,
/// and then those of its rest followed by the second piece.
pub fn law_of_cutting<W: Wire>()
    ensures records { (xs ys : List ℕ) → records_of W.HEAD W.extent_of (xs ++ ys)
        ≡ records_of W.HEAD W.extent_of xs
        ++ records_of W.HEAD W.extent_of (rest_of W.HEAD W.extent_of xs ++ ys) }
    ensures rest { (xs ys : List ℕ) → rest_of W.HEAD W.extent_of (xs ++ ys)
        ≡ rest_of W.HEAD W.extent_of (rest_of W.HEAD W.extent_of xs ++ ys) }
{}

/// A refused extent stays refused, whatever octets follow.
pub fn law_of_refusal<W: Wire>()
    ensures { (octets more : List ℕ) (e : W.Fault)
        → first_record W.HEAD W.extent_of octets ≡ Some (Err e)
        → first_record W.HEAD W.extent_of (octets ++ more) ≡ Some (Err e) }
{}

/// Spellings on a stream are its records, and no spelling is the beginning of another.
pub fn law_of_spellings<W: Wire>()
    ensures records { (spellings : List (List ℕ)) (more : List ℕ)
        → AllByRecursion (λ octets. (v : W.Value) × W.IsSpelling v octets) spellings
        → records_of W.HEAD W.extent_of (concat spellings ++ more)
        ≡ spellings ++ records_of W.HEAD W.extent_of more }
    ensures apart { (v w : W.Value) (xs ys more : List ℕ)
        → W.IsSpelling v xs → W.IsSpelling w ys → ys ≡ xs ++ more → more ≡ [] }
{}
