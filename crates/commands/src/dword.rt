ghost use Rattle.std.specs.Prelude.{◌≡◌, ◌<◌};
ghost use Rattle.health.specs.Words.{bit};

// Whether a dword has this bit set.
pub(crate) fn is_set(dword: u32, number: u32) -> bool
    requires { number < 32 }
    ensures { result ≡ bit dword number }
{
    (dword >> number) % 2 == 1
}
