ghost use Rattle.std.specs.Prelude.{◌≡◌, IfOk, length, vec_len};
ghost use Rattle.std.proofs.Props.{props};
ghost use Rattle.formula_code.specs.Codes.{HasRoom};
ghost use Rattle.compute_modules.specs.pieces.Formulas.{HasFormula, code_value};

use crate::NoMemory;
use crate::tap::{Tap, take_all};
use formula_code::{Code, Scratch, make_scratch, run_one};
use std::alloc::Global;

/// The code of a formula, with a tap for each of its reads and the room to run it.
#[derive(Drop)]
pub(crate) struct PortFormula {
    /// The code.
    pub code: Code,
    /// The taps, in the order of its reads.
    pub taps: Vec<Tap>,
    scratch: Scratch,
    values: Vec<i128>,
    ghost room: { HasRoom code scratch } by { Prim.hlevel props },
    ghost whole: { vec_len values ≡ length taps.items },
    ghost formula: { ∥ HasFormula code taps.items ∥₁ },
}

impl PortFormula {
    /// The code of a formula with these taps, and room to run it.
    pub(crate) fn new(alloc: Global, code: Code, taps: Vec<Tap>) -> Result<PortFormula, NoMemory>
        requires { HasFormula code taps.items }
        ensures code { IfOk result (λ made. made.code ≡ code) }
        ensures taps { IfOk result (λ made. made.taps ≡ taps) }
    {
        let scratch = make_scratch(alloc, &code, 1)?;
        let values = vec![in alloc; 0; taps.len()]?;
        Ok(PortFormula {
            code,
            taps,
            scratch,
            values,
        })
    }

    /// The formula's value over what is at its taps.
    pub(crate) fn value(&mut self, ports: &[i128]) -> i128
        ensures value { result ≡ code_value self.old.code self.old.taps.items ports.now }
        ensures code { self.new.code ≡ self.old.code }
        ensures taps { self.new.taps ≡ self.old.taps }
    {
        take_all(&self.taps, ports, &mut self.values);
        run_one(&self.code, &self.values, &mut self.scratch)
    }
}
