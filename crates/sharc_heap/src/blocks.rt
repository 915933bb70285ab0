//! The size of a block.

ghost use Rattle.std.specs.Prelude.{◌≡◌, ◌≤◌, ◌^◌};
ghost use Rattle.sharc_heap.specs.Block.{IsBlock, block_of};

/// How many granules the block of an object with this many cells has: the least power of two in which its header
/// granule and its data granules of two cells each have room.
pub fn block(cells: u64) -> u64
    requires least { 1 ≤ cells }
    requires most { cells ≤ 2 ^ 32 }
    ensures is { result ≡ block_of cells }
    ensures least { IsBlock cells result }
{
    (1 + cells.div_ceil(2)).next_power_of_two()
}
