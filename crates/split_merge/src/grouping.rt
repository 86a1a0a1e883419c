ghost use Rattle.std.specs.Prelude.{◌≡◌, ◌^◌, ◌<◌, ◌≤◌, IfOk};
ghost use Rattle.split_merge.specs.code.Groups.{AreConsecutive, group_at, groups};

use std::alloc::{AllocError, Global};

/// The indices below `count` in groups of consecutive ones, as even as can be: each from its first index up to the
/// first of the next. There are `n` groups, or `count` where that is less.
pub fn groups(alloc: Global, count: usize, n: usize) -> Result<Vec<(usize, usize)>, AllocError>
    requires some { 1 ≤ n }
    requires counted { count < 2 ^ 32 }
    ensures value { IfOk result (λ all. all.items ≡ groups count n) }
    ensures consecutive { AreConsecutive 0 count (groups count n) }
{
    let number = n.min(count);
    let mut all = Vec::with_capacity(alloc, number)?;
    for group in 0..number {
        all.push(group_at(group, count, number))?;
    }
    Ok(all)
}

/// One group of so many.
fn group_at(group: usize, count: usize, number: usize) -> (usize, usize)
    requires { (group < number) × (number ≤ count) × (count < 2 ^ 32) }
    ensures { result ≡ group_at count number group }
{
    (group * count / number, (group + 1) * count / number)
}
