ghost use Rattle.std.specs.Prelude.{◌≡◌, length};

use std::marker::Model;

/// One number for each read of a net, in the order of the reads.
#[derive(Drop)]
pub struct Amounts {
    numbers: Vec<u32>,
}

impl Model for Amounts {
    ghost use Rattle.std.specs.Prelude.{ℕ, List};

    ghost Value = { List ℕ };

    ghost view = { λ amounts. amounts.numbers.items };
}

impl Amounts {
    /// The numbers of the vector.
    pub fn from_vec(numbers: Vec<u32>) -> Amounts
        ensures { result ≡ numbers.items }
    {
        Amounts { numbers }
    }

    /// The numbers as a vector.
    pub fn into_vec(self) -> Vec<u32>
        ensures { result.items ≡ self }
    {
        let Amounts { numbers } = self;
        numbers
    }

    /// The numbers, in their order.
    pub fn as_slice(&self) -> &[u32]
        ensures { result.now ≡ self.now }
    {
        &self.numbers
    }
}

/// A certificate: what each read holds of the width of the tensor that it reads, and how much of
/// the window of each read is needed. `check` says whether it shows that an assignment of delays
/// has the least storage.
#[derive(Drop)]
pub struct Flow {
    /// The hold of each read.
    pub hold: Amounts,
    /// The need of each read.
    pub need: Amounts,
}
