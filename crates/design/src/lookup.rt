// Look-ups in lists that have something at every place.
ghost use Rattle.std.specs.Prelude.{◌≡◌, ◌<◌, ◌≤◌, length, slice_index_or};

// The item at a place; past the end the default of its type.
pub fn at<T: Copy + Default>(items: &[T], place: usize) -> T
    ensures inside { (z : T) → place < length items.now → result ≡ slice_index_or items.now place z }
    ensures past { length items.now ≤ place → T.is_default result }
    ensures only { (z : T) → ((y : T) → T.is_default y → y ≡ z) → result ≡ slice_index_or items.now place z }
{
    items.get(place).copied().unwrap_or_default()
}
