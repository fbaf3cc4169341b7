ghost use Rattle.std.specs.Prelude.{◌≡◌};
ghost use Rattle.reuse_chain.specs.Lanes.{greatest};

/// The greatest of these numbers, and 0 where there is none.
pub(crate) fn greatest_of(numbers: &[u64]) -> u64
    ensures { result ≡ greatest numbers.now }
{
    let mut greatest = 0;
    for number in numbers {
        greatest = (*number).max(greatest);
    }
    greatest
}
