//! Places in an order.

ghost use Rattle.std.specs.Prelude.{◌≡◌, ◌<◌, ◌≤◌, ◌+◌, ◌-◌, [], ◌∷◌, ◌++◌, Contains, slice_index, take};
ghost use Rattle.std.specs.List.{range_with_len};
ghost use Rattle.std.specs.List.Sorted.{IsPermutation};
ghost use Rattle.pb_banker.specs.Askers.{others_than};

use pb_base::limits::MAX_PROCESSES;

/// Returns the place of a process among the first of an order.
pub fn place_of(order: &[u8; MAX_PROCESSES], count: usize, p: usize) -> usize
    requires few { count ≤ MAX_PROCESSES }
    requires there { Contains (take count order.now) p }
    ensures within { result < count }
    ensures has { slice_index order.now result ≡ p }
{
    for k in 0..count {
        if order[k] as usize == p {
            return k;
        }
    }
    count
}

/// Moves a process before all others of an order, which stay as they were.
pub fn move_to_front(order: &mut [u8; MAX_PROCESSES], count: usize, p: usize)
    requires few { count ≤ MAX_PROCESSES }
    requires process { p < count }
    requires everyone { IsPermutation (range_with_len 0 count) (take count order.old) }
    ensures { take count order.new ≡ p ∷ others_than p (take count order.old) }
{
    let place = place_of(order, count, p);
    order[..place + 1].rotate_right(1);
}

/// Puts a process after all others of an order, which stay as they were. It is moved if it has a place.
pub fn put_last(order: &mut [u8; MAX_PROCESSES], count: usize, p: usize)
    requires few { count ≤ MAX_PROCESSES }
    requires slot { p ≤ count }
    requires room { p < MAX_PROCESSES }
    requires everyone { IsPermutation (range_with_len 0 count) (take count order.old) }
    ensures { take (p + 1 + (count - (p + 1))) order.new ≡ others_than p (take count order.old) ++ p ∷ [] }
{
    if p < count {
        let place = place_of(order, count, p);
        order[place..count].rotate_left(1);
    } else {
        order[p] = p as u8;
    }
}
