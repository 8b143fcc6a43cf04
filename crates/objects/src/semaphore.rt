// A counting semaphore.
ghost use Rattle.std.specs.Prelude.{◌≡◌};
ghost use Rattle.objects.specs.Semaphores.{no_semaphore, semaphore_fitb};

// The largest count, at which a put is refused.
pub const LARGEST_COUNT: u32 = 0xFFFFFFFF;

// A type of its own, though a group's record has the same shape: what the word means differs, and so do the definitions.
// `created` stands beside the count, and no Option around it: tables may hold an uncreated record that is not zero, which `semaphore_fitb` refuses.
#[derive(Clone, Copy)]
pub struct Semaphore {
    pub created: bool,
    pub count: u32,
}

impl Semaphore {
    // The record of a semaphore that is not created: all zero.
    pub fn none() -> Semaphore
        ensures { result ≡ no_semaphore }
    {
        Semaphore {
            created: false,
            count: 0,
        }
    }

    // Whether the record is fit in itself: an uncreated one is zero.
    pub fn is_fit(self) -> bool
        ensures { result ≡ semaphore_fitb self }
    {
        self.created | (self.count == 0)
    }
}
