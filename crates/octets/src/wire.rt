// Layouts of records whose first octets declare their length.

ghost use Rattle.std.specs.Prelude.{◌≡◌, ◌≤◌, ℕ, List, length, take, Result, Ok};

/// A layout of records on a stream; the first octets of each record declare its length.
pub trait Wire {
    /// Why octets are refused.
    type Fault: Copy;

    /// The number of octets that are needed to know a record's length.
    const HEAD: usize;

    ghost HEAD: { ℕ };

    // The length of a record with this head.
    ghost extent_of: { List ℕ → Result ℕ Self.Fault };

    // What a record represents, and which octets spell it.
    ghost Value: { Type 0 };

    ghost IsSpelling: { Value → List ℕ → Type 0 };

    ghost truncated_fault: { Self.Fault };

    ghost memory_fault: { Self.Fault };

    /// Returns the length in octets of the record that begins with these octets; only the first `HEAD` are
    /// looked at.
    /// Faults: the layout's, of a length.
    fn extent(head: &[u8]) -> Result<usize, Self::Fault>
        requires { HEAD ≤ length head.now }
        ensures { result ≡ extent_of (take HEAD head.now) };

    /// Returns the fault of a stream that ends within a record.
    fn truncated() -> Self::Fault
        ensures { result ≡ truncated_fault };

    /// Returns the fault for running out of memory.
    fn memory() -> Self::Fault
        ensures { result ≡ memory_fault };

    ghost some_head: { 1 ≤ HEAD };

    // A record contains its head.
    ghost extent_has_head: { (head : List ℕ) (n : ℕ) → extent_of head ≡ Ok n → HEAD ≤ n };

    ghost one_spelling: { (v : Value) (xs ys : List ℕ)
        → IsSpelling v xs → IsSpelling v ys → xs ≡ ys };

    // A spelling contains its head, which declares its length.
    ghost own_extent: { (v : Value) (octets : List ℕ) → IsSpelling v octets
        → (HEAD ≤ length octets) × (extent_of (take HEAD octets) ≡ Ok (length octets)) };
}
