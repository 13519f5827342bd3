ghost use Rattle.std.specs.Prelude.{ℕ, List};

/// A value that a lock can keep.
pub trait Kept {
    /// What the value is over. The lock makes no value of this type.
    type Inputs;

    // They are the same for as long as the lock lasts.
    ghost inputs: { Self → Self.Inputs };

    // How far the value has come. None of them ever falls.
    ghost positions: { Self → List ℕ };
}
