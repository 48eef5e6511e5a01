// The numbers that a counter may have.
ghost use Rattle.std.specs.Prelude.{◌≡◌, not};
ghost use Rattle.pages.specs.Read11.{no_number};

/// Whether a counter may have this number: 1 to FFFh, the twelve bits of an identifier but 0.
pub fn is_counter_number(number: u16) -> bool
    ensures { result ≡ not (no_number number) }
{
    (1..=0xfff).contains(&number)
}
