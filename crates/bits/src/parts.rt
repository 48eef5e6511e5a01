// A part of a slice, as far as the slice goes.
ghost use Rattle.std.specs.Prelude.{◌≡◌, take, drop};

/// The bytes from `at` on, at most `count` of them: fewer where the slice ends before, and none past its end.
pub fn part(bytes: &[u8], at: usize, count: usize) -> &[u8]
    ensures { result.now ≡ take count (drop at bytes.now) }
{
    let rest = bytes.get(at..).unwrap_or_default();
    rest.get(..count).unwrap_or(rest)
}
