//! Which bytes are copied into a new cluster.
ghost use Rattle.std.specs.Prelude.{◌≡◌, ◌+◌, ◌-◌, ◌*◌, ◌/◌, ◌<◌, ◌≤◌, ◌^◌, IfSome};
ghost use Rattle.qcow2_image.specs.CopyRange.{announced_range_of, copy_range_of, uncut_copy_range};

/// A part of a cluster, in bytes from its start.
#[derive(Clone, Copy, Debug, PartialEq, Eq)]
pub struct CopyRange {
    /// The first byte.
    pub start: u64,
    /// The end: the byte after the last one.
    pub end: u64,
}

/// The part of a cluster that the caller promised to overwrite. The range begins at `start` in the cluster.
pub(crate) fn announced_range(
    cluster_size: u64,
    start: u64,
    length: u64,
    overwrite: bool,
) -> Option<CopyRange>
    requires { start < cluster_size }
    ensures value { result ≡ announced_range_of cluster_size start length overwrite }
    ensures within { IfSome result (λ r. (r.start ≤ r.end) × (r.end ≤ cluster_size)) }
{
    if !overwrite {
        return None;
    }
    let end = start + length.min(cluster_size - start);
    Some(CopyRange { start, end })
}

fn uncut(cluster_size: u64, announced: Option<CopyRange>) -> CopyRange
    requires { IfSome announced (λ r. (r.start ≤ r.end) × (r.end ≤ cluster_size)) }
    ensures value { result ≡ uncut_copy_range cluster_size announced }
    ensures within { result.end ≤ cluster_size }
{
    let whole = CopyRange {
        start: 0,
        end: cluster_size,
    };
    let Some(skipped) = announced else {
        return whole;
    };
    if skipped.start == 0 {
        CopyRange {
            start: skipped.end,
            end: cluster_size,
        }
    } else if skipped.end == cluster_size {
        CopyRange {
            start: 0,
            end: skipped.start,
        }
    } else {
        whole
    }
}

/// The bytes to copy into a new cluster. The caller may have promised to overwrite a part of it. A promised part in the middle is copied too.
/// The cluster size and the alignment are in bytes. Both ends of the copied range are rounded to the alignment.
pub fn copy_range(
    cluster_size: u64,
    alignment: u64,
    announced: Option<CopyRange>,
) -> Option<CopyRange>
    requires some { 0 < alignment }
    requires cluster { 0 < cluster_size }
    requires small { cluster_size < 2 ^ 32 }
    requires within { IfSome announced (λ r. (r.start ≤ r.end) × (r.end ≤ cluster_size)) }
    ensures value { result ≡ copy_range_of cluster_size alignment announced }
    ensures within { IfSome result (λ r. (r.start < r.end) × (r.end ≤ cluster_size)) }
{
    let range = uncut(cluster_size, announced);
    if range.start >= range.end {
        return None;
    }
    let step = alignment.min(cluster_size);
    let start = range.start / step * step;
    let end = (range.end + step - 1) / step * step;
    Some(CopyRange {
        start,
        end: end.min(cluster_size),
    })
}
