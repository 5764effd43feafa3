//! What a cache of tables has to know of its values.
ghost use Rattle.std.specs.Prelude.{◌≡◌, true, false, Option};

use crate::async_lru_cache::AsyncLruCacheBackend;

/// A backend whose values say whether they are modified.
pub trait TableBackend: AsyncLruCacheBackend {
    /// Whether a value differs from what the store should have.
    fn is_modified(value: &Self::Value) -> bool
        ensures { result ≡ Self.Value.is_modified value.now };

    /// Equal keys are the same.
    ghost exact: { (j k : Self.Key) → Self.Key.eq j k ≡ true → j ≡ k };

    /// A value that isn't modified may be left as it is at a flush.
    ghost rests: { (b : Self) (s : Self.Store) (k : Self.Key) (v : Self.Value) → Self.Value.is_modified v ≡ false
        → (Self.steps b).flushed s k v v s };
}

/// A change of a value.
pub trait Change<B: TableBackend> {
    /// What it answers.
    type Answer;

    /// What it makes of a value, with its answer.
    ghost applied: { Self → B.Value → Option Self.Answer → B.Value → Type 0 };

    /// Changes a value. None if the value refuses the change.
    fn apply(&self, value: &mut B::Value) -> Option<Self::Answer>
        ensures { applied self.now value.old result value.new };
}
