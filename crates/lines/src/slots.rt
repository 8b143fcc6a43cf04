// Slots that are filled from the front, the test of those that are not in use, and reading and storing in a table.
ghost use Rattle.std.specs.Prelude.{◌≡◌, ◌++◌, get_or, set};
ghost use Rattle.std.specs.List.{list_all};
ghost use Rattle.lines.specs.Slots.{filled};

// `N` slots that begin with two parts one behind the other, as far as they go, and `blank` behind them.
pub fn packed<T: Copy, const N: usize>(blank: T, front: &[T], back: &[T]) -> [T; N]
    ensures { result ≡ filled N blank (front.now ++ back.now) }
{
    let mut slots = [blank; N];
    let n = front.len().min(N);
    let m = back.len().min(N - n);
    let all = &mut slots[..];
    all[..n].copy_from_slice(&front[..n]);
    all[n..n + m].copy_from_slice(&back[..m]);
    slots
}

// Whether all slots are `blank`. It looks at every slot, whatever it finds, so that several are compared at once.
pub fn are_blank<T: Copy + PartialEq>(slots: &[T], blank: T) -> bool
    ensures { result ≡ list_all (λ x. T.eq x blank) slots.now }
{
    let mut all = true;
    for x in slots {
        all &= *x == blank;
    }
    all
}

// Record `n` of a table, and `none` past it.
pub fn record_in<T: Copy>(all: &[T], n: u8, none: T) -> T
    ensures { result ≡ get_or all.now n none }
{
    all.get(n as usize).copied().unwrap_or(none)
}

// Record `n` of a table is another; past the table nothing changes.
// By index: what `get_mut` promises says nothing of the table afterwards.
pub fn store<T: Copy>(all: &mut [T], n: u8, x: T)
    ensures { all.new ≡ set all.old n x }
{
    let i = n as usize;
    if i < all.len() {
        all[i] = x;
    }
}
