//! What may go to another thread.
ghost use Rattle.std.specs.Prelude.{◌≡◌};

// The same value. Where this is called, it is proved of its type that another thread may have it.
pub(crate) fn crossing<T: Send>(x: T) -> T
    ensures { result ≡ x }
{
    x
}
