// An event flags group, and the test of a request against its flags.
ghost use Rattle.std.specs.Prelude.{◌≡◌};
ghost use Rattle.objects.specs.Groups.{no_group, group_with, group_fitb, metb, clear_of, less_flags};

// The options of a request are 0 OR, 1 OR and clear, 2 AND, 3 AND and clear: from this one on all its flags are asked for.
// Numbers and no enum: tables may hold any byte here, and the rules (`metb`, `clear_of`) say what each of them asks for.
pub const AND: u8 = 2;

// Every flag.
pub const ALL_FLAGS: u32 = 0xFFFFFFFF;

// `created` stands beside the fields, and no Option around them: tables may hold an uncreated record that is not zero, which `group_fitb` refuses.
#[derive(Clone, Copy)]
pub struct Group {
    pub created: bool,
    pub flags: u32,
}

impl Group {
    // The record of a group that is not created: all zero.
    pub fn none() -> Group
        ensures { result ≡ no_group }
    {
        Group {
            created: false,
            flags: 0,
        }
    }

    // A created group with these flags.
    pub fn of(flags: u32) -> Group
        ensures { result ≡ group_with flags }
    {
        Group {
            created: true,
            flags,
        }
    }

    // Whether the record is fit in itself: an uncreated one is zero.
    pub fn is_fit(self) -> bool
        ensures { result ≡ group_fitb self }
    {
        self.created | (self.flags == 0)
    }
}

// Request and option stand apart here and in the callers, as `metb` and `clear_of` take them.
// Whether `flags` meet a request: some of its flags are set, or all of them, by the option. A request of 0 is never met.
pub fn is_met(flags: u32, request: u32, option: u8) -> bool
    ensures { result ≡ metb flags request option }
{
    let set = flags & request;
    if option < AND {
        (request != 0) & (set != 0)
    } else {
        (request != 0) & (set == request)
    }
}

// The flags that a request takes off once it is met: options 1 and 3 clear.
pub fn cleared_by(request: u32, option: u8) -> u32
    ensures { result ≡ clear_of request option }
{
    match option {
        1 | 3 => request,
        _ => 0,
    }
}

// The flags without some others.
pub fn less(flags: u32, others: u32) -> u32
    ensures { result ≡ less_flags flags others }
{
    flags & (ALL_FLAGS ^ others)
}
