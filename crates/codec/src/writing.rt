// Tables written into a block of bytes.
ghost use Rattle.std.specs.Prelude.{◌≡◌};
ghost use Rattle.codec.specs.Bytes.{block_after};

use super::layout;
use super::records::Record;
use kernel::{Answer, Kernel};

#[tactic(auto, using(crate::proofs::Laws::Sizes::sized_after, crate::proofs::Laws::Sizes::other_after))]
fn put(b: &mut [u8], k: &Kernel)
    ensures { b.new ≡ block_after b.old k.now }
{
    if b.len() == layout::STATE_BYTES {
        k.write(b);
    }
}

// Writes the tables of an answer into a block, and nothing into bytes of another number. It takes the answer whole: tables that are taken
// out of it are copied.
pub fn put_answer(b: &mut [u8], a: Answer)
    ensures { b.new ≡ block_after b.old a.kernel }
{
    put(b, &a.kernel);
}

// Writes tables into a block, and nothing into bytes of another number.
pub fn put_kernel(b: &mut [u8], k: Kernel)
    ensures { b.new ≡ block_after b.old k }
{
    put(b, &k);
}
