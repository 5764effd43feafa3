//! How long a new reftable must be.
ghost use Rattle.std.specs.Prelude.{ℕ, ◌^◌, ◌<◌, ◌≤◌, IfSome, IfNone};
ghost use Rattle.qcow2_alloc.specs.Growing.{IsLongEnough, IsLeastLength};

use qcow2_metadata::MAX_REFTABLE_ENTRIES;

// The least length that is enough for an index, up to the greatest one.
pub(crate) fn grown_length(old: u64, index: u64, per_cluster: u64, per_block: u64) -> Option<u64>
    requires some { 0 < per_cluster }
    requires counts { 0 < per_block }
    requires small_block { per_block ≤ 2 ^ 24 }
    requires near { index ≤ 2 ^ 20 }
    ensures least { IfSome result (IsLeastLength old index per_cluster per_block) }
    ensures small { IfSome result (λ length. length ≤ 2 ^ 20) }
    ensures none { IfNone result ((length : ℕ) → length ≤ 2 ^ 20
        → IsLongEnough old index per_cluster per_block length → ⊥) }
{
    let most = MAX_REFTABLE_ENTRIES as u64;
    let counts = per_block - 1;
    if most < per_cluster {
        return None;
    }
    if counts == 0 {
        return None;
    }
    // How many more clusters one cluster of entries can count. If there are none, only index 0 has room above it.
    let more = per_cluster * counts - 1;
    if more < index.min(1) {
        return None;
    }
    // Clusters of entries needed to reach above the index, to be as long as before, and to count themselves above the index.
    let above = index / per_cluster + 1;
    let longer = old.div_ceil(per_cluster);
    let counted = (index * counts).div_ceil(more.max(1));
    let clusters = above.max(longer).max(counted);
    if most / per_cluster < clusters {
        return None;
    }
    Some(clusters * per_cluster)
}
