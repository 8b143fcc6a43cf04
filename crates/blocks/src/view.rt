// The block view: a used block as a part of the lent pool area, to be written.
ghost use Rattle.std.specs.Prelude.{◌≡◌, true, length};
ghost use Rattle.blocks.specs.Pools.{block_start};
ghost use Rattle.blocks.specs.Views.{viewedb, extent_of, viewed, onwards, written};

use super::pool::Pool;

// A run of bytes of an area: its first byte, and how many they are.
#[derive(Clone, Copy)]
pub struct Extent {
    pub start: usize,
    pub length: usize,
}

impl Pool {
    // Whether block `block` is shown in an area of `len` bytes.
    fn is_viewed(self, block: u32, len: usize) -> bool
        ensures { result ≡ viewedb self block len }
    {
        self.created & (self.total as usize <= len) & self.is_used(block)
    }

    // Where block `block` lies in an area of `len` bytes, 0 bytes where it is not shown: no Option, since `extent_of` says so.
    pub fn block_extent(self, block: u32, len: usize) -> Extent
        ensures { result ≡ extent_of self block len }
    {
        let length = self.block as usize;
        if self.is_viewed(block, len) {
            let start = (block as usize) * (length + 4) + 4;
            Extent { start, length }
        } else {
            Extent {
                start: 0,
                length: 0,
            }
        }
    }

    // Rule 10.5: block `block` as a part of the lent area, of length 0 where it is not shown.
    // Left free is where in the area a part of length 0 lies.
    pub fn block_view<'a>(self, block: u32, area: &'a mut [u8]) -> &'a mut [u8]
        ensures shows { result.now ≡ viewed self block area.old }
        ensures lies { viewedb self block (length area.old) ≡ true → result.ref_ptr ≡ onwards (block_start self block) area.entry.ref_ptr }
    {
        let e = self.block_extent(block, area.len());
        &mut area[e.start..e.start + e.length]
    }

    // Writes `bytes` to the front of block `block`, as many as it has room for, and nothing where it is not shown.
    pub fn block_write(self, block: u32, bytes: &[u8], area: &mut [u8])
        ensures { area.new ≡ written self block bytes.now area.old }
    {
        let e = self.block_extent(block, area.len());
        let n = bytes.len().min(e.length);
        area[e.start..e.start + n].copy_from_slice(&bytes[..n]);
    }
}
