// A slice copied into another, one element a turn.
ghost use Rattle.std.specs.Prelude.{◌≡◌, length};

// Each element of `to` becomes the one at its place in `from`.
// Stays (C interface): `copy_from_slice` calls `memmove`, which a C program that links the archive would have to bring beside `memcpy` and `memset`.
pub(crate) fn copy_all<T: Copy>(from: &[T], to: &mut [T])
    requires { length to.old ≡ length from.now }
    ensures { to.new ≡ from.now }
{
    for (i, x) in from.iter().enumerate() {
        to[i] = *x;
    }
}
