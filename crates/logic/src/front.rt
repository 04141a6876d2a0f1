//! Writing over the front of a slice.
ghost use Rattle.std.specs.Prelude.{◌≡◌, ◌≤◌, length};
ghost use Rattle.logic.specs.Walks.{over};

/// Copies values to the first places.
pub fn put_front<T: Copy>(front: &[T], values: &mut [T])
    requires { length front.now ≤ length values.old }
    ensures { values.new ≡ over front.now values.old }
{
    let end = front.len();
    values[0..end].copy_from_slice(front);
}
