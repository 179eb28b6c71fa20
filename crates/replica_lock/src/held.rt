//! What may lie behind a turn.

ghost use Rattle.std.specs.Prelude.{◌≡◌, ℕ};

/// A value that has entries, and a name.
///
/// The name is plain data, in proofs alone, that tells values of one type apart: as, which copies a value belongs to. A
/// turn keeps the name of the value that it was made with, since only a value of that name can be given back.
pub trait Held {
    /// What a name is. No value of this type has to be made.
    type Name;

    /// The value's name.
    ghost name_of: { Self → Self.Name };

    /// How many entries the value has.
    ghost count_of: { Self → ℕ };

    /// Any name: that of a seat which was joined into another, and which nobody asks for.
    ghost nowhere: { Self.Name };

    /// How many entries the value has.
    fn count(&self) -> u64
        ensures { result ≡ count_of self.now };
}
