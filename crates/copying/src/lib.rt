// Items copied into the first of lent places, and numbers moved down among them.
#![tactic(auto)]

ghost use Rattle.std.specs.Prelude.{◌≡◌, ◌++◌, ◌+◌, ◌-◌, ◌≤◌, length, take, drop};

// Puts the items in the first places.
pub fn load<T: Copy>(places: &mut [T], items: &[T])
    requires { length items.now ≤ length places.old }
    ensures { places.new ≡ items.now ++ drop (length items.now) places.old }
{
    places[..items.len()].copy_from_slice(items);
}

// Moves the `n` numbers before `end` to the places from `to` on.
pub fn move_down(places: &mut [u32], to: usize, end: usize, n: usize)
    requires { (to + n ≤ end) × (end ≤ length places.old) }
    ensures { places.new ≡ take to places.old ++ (take n (drop (end - n) places.old) ++ drop (to + n) places.old) }
{
    places.copy_within(end - n..end, to);
}
