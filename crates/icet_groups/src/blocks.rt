//! Blocks: each member of a group takes the images of one block of the tile's contributors.
ghost use Rattle.std.specs.Prelude.{◌≡◌, ◌≤◌, ◌<◌, ◌^◌, length};
ghost use Rattle.icet_groups.specs.Blocks.{block_of, block_start};

use icet_base::Rank;

/// The contributors whose images member `j` of a group of `members` takes: those from `c * j / members` on, of c
/// contributors, up to where the block of the next member begins. Conditions: there is such a member, and there are fewer
/// than 2^32 contributors.
pub fn block(contributors: &[Rank], members: u32, j: u32) -> &[Rank]
    requires member { j < members }
    requires few { length contributors.now < 2 ^ 32 }
    ensures { result.now ≡ block_of contributors.now members j }
{
    let count = contributors.len() as u32;
    &contributors[block_start(count, members, j)..block_start(count, members, j + 1)]
}

// where the block of member j begins
fn block_start(count: u32, members: u32, j: u32) -> usize
    requires some { 0 < members }
    requires member { j ≤ members }
    ensures start { result ≡ block_start count members j }
    ensures within { result ≤ count }
{
    (u64::from(count) * u64::from(j) / u64::from(members)) as usize
}
