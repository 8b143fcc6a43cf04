// Tables read from a block of bytes.
ghost use Rattle.std.specs.Prelude.{◌≡◌};
ghost use Rattle.codec.specs.State.{tables_of};

use super::layout;
use super::records::Record;
use kernel::Kernel;

// The tables of a block; bytes of another number are taken for the tables in which nothing is created.
#[tactic(auto, using(crate::proofs::Laws::Sizes::sized_tables, crate::proofs::Laws::Sizes::other_tables))]
pub fn kernel_of(b: &[u8]) -> Kernel
    ensures { result ≡ tables_of b.now }
{
    let mut k = Kernel::start();
    if b.len() == layout::STATE_BYTES {
        k.read(b);
    }
    k
}
