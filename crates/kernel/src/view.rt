// The block view: a used block of a pool as a part of the lent pool area, to be written.
ghost use Rattle.std.specs.Prelude.{◌≡◌, true, length};
ghost use Rattle.blocks.specs.Pools.{block_start};
ghost use Rattle.blocks.specs.Views.{viewedb, onwards};
ghost use Rattle.kernel.specs.Views.{viewed_pool, block_extent, block_view, block_written};

use super::Kernel;
use blocks::pool::Pool;
use blocks::view::Extent;
use lines::slots::record_in;
use numbers::PoolId;

impl Kernel {
    // The record of pool `n`; that of an uncreated one past the table, and where the tables are unsound.
    #[tactic(auto, unfolding(crate::specs::Views::viewed_pool, crate::specs::Tables::pool_at))]
    fn viewed_pool(self, n: PoolId) -> Pool
        ensures { result ≡ viewed_pool self n.0 }
    {
        if self.is_sound() {
            record_in(&self.pools, n.0, Pool::none())
        } else {
            Pool::none()
        }
    }

    // Where block `block` of pool `n` lies in an area of `len` bytes, 0 bytes where it is not shown.
    pub fn block_extent(self, n: PoolId, block: u32, len: usize) -> Extent
        ensures { result ≡ block_extent self n.0 block len }
    {
        self.viewed_pool(n).block_extent(block, len)
    }

    // Block `block` of pool `n` as a part of the lent area, of length 0 where it is not shown. Left free is where in the
    // area a part of length 0 lies.
    pub fn block_view<'a>(self, n: PoolId, block: u32, area: &'a mut [u8]) -> &'a mut [u8]
        ensures shows { result.now ≡ block_view self n.0 block area.old }
        ensures lies { viewedb (viewed_pool self n.0) block (length area.old) ≡ true → result.ref_ptr ≡ onwards (block_start (viewed_pool self n.0) block) area.entry.ref_ptr }
    {
        self.viewed_pool(n).block_view(block, area)
    }

    // Writes `bytes` to the front of block `block` of pool `n`, as many as it has room for, and nothing where it is not shown.
    pub fn block_write(self, n: PoolId, block: u32, bytes: &[u8], area: &mut [u8])
        ensures { area.new ≡ block_written self n.0 block bytes.now area.old }
    {
        self.viewed_pool(n).block_write(block, bytes, area)
    }
}
