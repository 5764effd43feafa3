//! Laws of contents and changes. The functions do nothing; calling one adds its clauses to the facts of the caller's proof.
ghost use Rattle.std.specs.Prelude.{◌≡◌, ◌⊎◌, ◌+◌, ◌-◌, ◌<◌, ◌≤◌, List, ℕ, length, take, max};
ghost use Rattle.image_access.specs.Changes.{replayed, up_to_write, write_offsets, HadSince};
ghost use Rattle.image_access.specs.Contents.{stored_byte, bytes_at, resized, overwritten, zeroed};
ghost use Rattle.image_access.specs.declared.change.Change.{Change};

/// What a read returns: the bytes of its range, with zeros past the end.
#[tactic(auto, using(crate::proofs::Bytes::reads))]
pub fn reads_give_bytes()
    ensures count { (contents : List ℕ) (at n : ℕ) → length (bytes_at contents at n) ≡ n }
    ensures each { (contents : List ℕ) (at n i : ℕ) → i < n → stored_byte (bytes_at contents at n) i ≡ stored_byte contents (at + i) }
    ensures past { (contents : List ℕ) (offset : ℕ) → length contents ≤ offset → stored_byte contents offset ≡ 0 }
{}

/// What a write leaves: the written bytes in its range, and the old ones elsewhere.
#[tactic(auto, using(crate::proofs::Bytes::reads))]
pub fn writes_are_read()
    ensures written { (contents bytes : List ℕ) (at : ℕ) → bytes_at (overwritten contents at bytes) at (length bytes) ≡ bytes }
    ensures elsewhere { (contents bytes : List ℕ) (at from n : ℕ) → (from + n ≤ at) ⊎ (at + length bytes ≤ from)
        → bytes_at (overwritten contents at bytes) from n ≡ bytes_at contents from n }
    ensures size { (contents bytes : List ℕ) (at : ℕ) → 0 < length bytes
        → length (overwritten contents at bytes) ≡ max (length contents) (at + length bytes) }
    ensures empty { (contents bytes : List ℕ) (at : ℕ) → length bytes ≡ 0 → overwritten contents at bytes ≡ contents }
{}

/// What a zeroing leaves in its range.
#[tactic(auto, using(crate::proofs::Bytes::reads))]
pub fn zeroes_are_read()
    ensures { (contents : List ℕ) (at n offset : ℕ) → at ≤ offset → offset < at + n → stored_byte (zeroed contents at n) offset ≡ 0 }
{}

/// What a resize leaves: the new size, the old bytes below it, and zeros past the old end.
#[tactic(auto, using(crate::proofs::Bytes::reads))]
pub fn resizes_are_read()
    ensures size { (contents : List ℕ) (size : ℕ) → length (resized contents size) ≡ size }
    ensures below { (contents : List ℕ) (size offset : ℕ) → offset < size
        → stored_byte (resized contents size) offset ≡ stored_byte contents offset }
    ensures past { (contents : List ℕ) (size offset : ℕ) → size ≤ offset → stored_byte (resized contents size) offset ≡ 0 }
{}

/// The changes up to the n-th write: they have the first n offsets, and leave contents that the storage had since the start.
pub fn first_writes_are_moments()
    ensures offsets { (n : ℕ) (changes : List Change) → write_offsets (up_to_write n changes) ≡ take n (write_offsets changes) }
    ensures moment { (start : List ℕ) (n : ℕ) (changes : List Change)
        → HadSince start changes 0 (replayed start (up_to_write n changes)) }
{}
