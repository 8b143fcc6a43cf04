// A block pool: blocks of `block` bytes in an area of `total` bytes, four bytes of overhead before each.
ghost use Rattle.std.specs.Prelude.{◌≡◌, ◌++◌, min, ltb};
ghost use Rattle.numbers.specs.Numbers.{slots};
ghost use Rattle.lines.specs.Slots.{zero_from};
ghost use Rattle.blocks.specs.Pools.{no_pool, blocks_of, free_blocks, block_sizesb, pool_limitsb, listingb, pool_zerob, pool_fitb, listing, fresh_pool, usedb, next_block, without_next, with_free};

use lines::slots::{are_blank, packed};
use numbers::{NO_BLOCK, SLOTS};
use std::array;

// How many blocks a list has room for, which is the most that a pool may have.
const MOST: u32 = SLOTS as u32;

// The first `free` slots of `list` are the free blocks, in the order in which they are given; the slots behind them are zero. An array and a
// count, and no Vec: the library has no heap.
// `created` stands beside the fields, and no Option around them: tables may hold an uncreated record that is not zero, which `pool_fitb` refuses.
#[derive(Clone, Copy)]
pub struct Pool {
    pub created: bool,
    pub block: u16,
    pub total: u32,
    pub free: u8,
    pub list: [u8; SLOTS],
}

impl Pool {
    // The record of a pool that is not created: all zero.
    pub fn none() -> Pool
        ensures { result ≡ no_pool }
    {
        Pool {
            created: false,
            block: 0,
            total: 0,
            free: 0,
            list: [0; SLOTS],
        }
    }

    // How many blocks the area has, each with its four bytes of overhead.
    pub fn blocks(self) -> u32
        ensures { result ≡ blocks_of self }
    {
        self.total / ((self.block as u32) + 4)
    }

    // How many slots list a free block.
    fn listed(self) -> usize
        ensures { result ≡ min self.free slots }
    {
        (self.free as usize).min(SLOTS)
    }

    // The free blocks, in the order in which they are given.
    fn free_blocks(&self) -> &[u8]
        ensures { result.now ≡ free_blocks self.now }
    {
        &self.list[..self.listed()]
    }

    // Whether the block size and the number of blocks are within bounds.
    fn is_limited(self) -> bool
        ensures { result ≡ pool_limitsb self }
    {
        sizes_fit(self.block as u32, self.total)
    }

    // Whether the free blocks are blocks of the pool, none of them listed twice.
    fn is_listing(self) -> bool
        ensures { result ≡ listingb self }
    {
        let blocks = self.blocks();
        let mut counts: [u8; SLOTS] = [0; SLOTS];
        for x in self.free_blocks() {
            let k = *x as usize;
            if blocks <= *x as u32 {
                return false;
            }
            if k < SLOTS {
                if counts[k] != 0 {
                    return false;
                }
                counts[k] += 1;
            }
        }
        true
    }

    // Whether the slots behind the free blocks are zero.
    fn is_clean(self) -> bool
        ensures { result ≡ zero_from self.free self.list }
    {
        let n = self.listed();
        are_blank(&self.list[n..], 0)
    }

    // Whether the record is fit in itself: sizes within bounds, each free block listed once, what is not in use zero.
    pub fn is_fit(self) -> bool
        ensures { result ≡ pool_fitb self }
    {
        let clean = self.is_clean();
        if self.created {
            let free = self.free as u32;
            self.is_limited() & ((free <= self.blocks()) & self.is_listing() & clean)
        } else {
            (self.block == 0) & (self.total == 0) & (self.free == 0) & clean
        }
    }

    // Whether an uncreated record is zero. No equality: `pool_zerob` does not look at `created`.
    pub fn is_zero(self) -> bool
        ensures { result ≡ pool_zerob self }
    {
        (self.block == 0) & (self.total == 0) & (self.free == 0) & are_blank(&self.list, 0)
    }

    // The pool with the free blocks of two parts one behind the other: the first 64 of them, and zero behind them.
    fn listing(self, front: &[u8], back: &[u8]) -> Pool
        ensures { result ≡ listing self (front.now ++ back.now) }
    {
        let free = front.len().saturating_add(back.len()).min(SLOTS);
        Pool {
            free: free as u8,
            list: packed(0, front, back),
            ..self
        }
    }

    // A created pool, all its blocks free in ascending order. Sizes past two bytes, which no pool has, become 65535.
    pub fn of(block: u32, total: u32) -> Pool
        ensures { result ≡ fresh_pool (min block 65535) total }
    {
        let numbers: [u8; SLOTS] = array::from_fn(|i| i as u8);
        let pool = Pool {
            created: true,
            block: u16::try_from(block).unwrap_or(u16::MAX),
            total,
            ..Pool::none()
        };
        let n = (pool.blocks() as usize).min(SLOTS);
        pool.listing(&numbers[..n], &[])
    }

    // Whether block `n` is one of the pool's and in use.
    pub fn is_used(self, n: u32) -> bool
        ensures { result ≡ usedb self n }
    {
        (n < self.blocks()) & self.free_blocks().iter().all(|x| *x as u32 != n)
    }

    // Whether a block is free.
    pub fn has_free(self) -> bool
        ensures { result ≡ ltb 0 self.free }
    {
        0 < self.free
    }

    // The block that is given next; 64, which is no block, where none is free.
    pub fn next(self) -> u8
        ensures { result ≡ next_block self }
    {
        self.free_blocks().first().copied().unwrap_or(NO_BLOCK)
    }

    // The pool whose next block is given.
    pub fn without_next(self) -> Pool
        ensures { result ≡ without_next self }
    {
        let left = self.free_blocks().get(1..).unwrap_or(&[]);
        self.listing(left, &[])
    }

    // The pool in which block `n` is free again: the last released is given first.
    pub fn with_free(self, n: u8) -> Pool
        ensures { result ≡ with_free self n }
    {
        self.listing(&[n], self.free_blocks())
    }
}

// Whether block bytes are a multiple of 4, from 4 to 256, and there are 1 to 64 blocks.
pub fn sizes_fit(block: u32, total: u32) -> bool
    ensures { result ≡ block_sizesb block total }
{
    if block <= 256 {
        let blocks = total / (block + 4);
        (block % 4 == 0) & (4 <= block) & (block <= 256) & (1 <= blocks) & (blocks <= MOST)
    } else {
        false
    }
}
