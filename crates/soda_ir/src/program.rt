ghost use Rattle.std.specs.Prelude.{◌≡◌, map, option_map, slice_index_or, IfOk};
ghost use Rattle.soda_ir.specs.Counts.{is_input, is_input_role, is_output, is_output_role};
ghost use Rattle.soda_ir.specs.Program.{plain, preserves};
ghost use Rattle.soda_ir.specs.Tree.{formula_of};
ghost use Rattle.soda_ir.specs.Valid.{IsValid};
ghost use Rattle.soda_ir.specs.Written.{index_count};

use crate::expr::Expr;
use crate::make::{MakeRefusal, is_valid};
use soda_words::Ty;
use sqlite_items::Items;
use std::alloc::Global;
use std::marker::Model;

/// A table of values that formulas read. Its place counts with the last index changing fastest.
#[derive(Drop)]
pub struct Param {
    /// The name's bytes.
    pub name: Items<u8>,
    /// The type of each value.
    pub ty: Ty,
    /// How many values there are along each index, in order; a param with no size is one value.
    pub sizes: Items<u64>,
}

/// What a tensor is for.
#[derive(Clone, Copy, Debug)]
pub enum Role {
    /// Read from a file.
    Input,
    /// Between inputs and outputs.
    Local,
    /// Written to a file.
    Output,
}

impl Role {
    /// Whether this is the role of an input.
    pub fn is_input(self) -> bool
        ensures { result ≡ is_input_role self }
    {
        match self {
            Role::Input => true,
            Role::Local | Role::Output => false,
        }
    }

    /// Whether this is the role of an output.
    pub fn is_output(self) -> bool
        ensures { result ≡ is_output_role self }
    {
        match self {
            Role::Input | Role::Local => false,
            Role::Output => true,
        }
    }
}

/// What an output's cell is outside its region.
#[derive(Clone, Copy, Debug)]
pub enum Border {
    /// 0.
    Ignore,
    /// The cell of the input with the same number, at the same point, in the same iteration.
    Preserve,
}

/// An array of cells, with its formula where it is no input.
#[derive(Drop)]
pub struct Tensor {
    /// The name's bytes.
    pub name: Items<u8>,
    /// The type of each cell.
    pub ty: Ty,
    /// What it is for.
    pub role: Role,
    /// What its cells are in its region, and None for an input.
    pub formula: Option<Expr>,
}

/// What a program is made of.
#[derive(Drop)]
pub struct Parts {
    /// The program's name, as bytes.
    pub kernel: Items<u8>,
    /// The width of a burst, in bits.
    pub burst: u64,
    /// How many cells are made in a cycle.
    pub unroll: u64,
    /// How often the computation runs.
    pub iterate: u64,
    /// What the outputs' cells are outside their regions.
    pub border: Border,
    /// The params, in text order.
    pub params: Items<Param>,
    /// The fixed extents, in cells: all but the last.
    pub extents: Items<u64>,
    /// The inputs, and then the locals and outputs in text order.
    pub tensors: Items<Tensor>,
}

/// A valid program.
#[derive(Drop)]
pub struct Program {
    parts: Parts,
}

impl Model for Program {
    ghost use Rattle.soda_ir.specs.declared.program.Parts.{Parts};
    ghost use Rattle.soda_ir.specs.contracts.expr.Expr as e;
    ghost use Rattle.std.specs.Coded.{codes};

    ghost Value = { Parts };

    ghost coded = { Prim.hlevel (codes, e.the_row.coded) };

    ghost use Rattle.soda_ir.specs.Program.{plain};
    ghost use Rattle.soda_ir.specs.Valid.{IsValid};

    ghost view = { λ p. p.parts };

    ghost invariant = { λ p. IsValid (plain p.parts) };
}

impl Program {
    /// The program of these parts. `Invalid` comes exactly where they are no valid program; a refusal lets the parts
    /// go.
    pub fn make(alloc: Global, parts: Parts) -> Result<Program, MakeRefusal>
        ensures made { IfOk result (λ program. program ≡ parts) }
        ensures valid { IfOk result (λ program. IsValid (plain program)) }
        ensures invalid { result ≡ Err MakeRefusal.Invalid → IsValid (plain parts) → ⊥ }
    {
        match is_valid(alloc, &parts) {
            Ok(true) => Ok(Program { parts }),
            Ok(false) => {
                drop(parts);
                Err(MakeRefusal::Invalid)
            }
            Err(_) => {
                drop(parts);
                Err(MakeRefusal::Memory)
            }
        }
    }

    /// What the program is made of.
    pub fn parts(&self) -> &Parts
        ensures value { result.now ≡ self.now }
        ensures valid { IsValid (plain self.now) }
    {
        &self.parts
    }
}

impl Parts {
    /// Whether outputs keep the cells of their inputs outside their regions.
    pub fn is_preserved(&self) -> bool
        ensures { result ≡ preserves (plain self.now) }
    {
        match self.border {
            Border::Ignore => false,
            Border::Preserve => true,
        }
    }

    /// How many indexes a param has, and 0 past the last param.
    pub(crate) fn index_count(&self, param: u32) -> u64
        ensures { result ≡ index_count (plain self.now) param }
    {
        match self.params.get(param as usize) {
            Some(param) => param.sizes.len() as u64,
            None => 0,
        }
    }

    /// Whether the tensor is an input.
    pub(crate) fn is_input(&self, tensor: u32) -> bool
        ensures { result ≡ is_input (plain self.now) tensor }
    {
        match self.tensors.get(tensor as usize) {
            Some(tensor) => tensor.role.is_input(),
            None => false,
        }
    }

    /// Whether the tensor is an output.
    pub(crate) fn is_output(&self, tensor: u32) -> bool
        ensures { result ≡ is_output (plain self.now) tensor }
    {
        match self.tensors.get(tensor as usize) {
            Some(tensor) => tensor.role.is_output(),
            None => false,
        }
    }

    /// The formula of a tensor, and None for an input and past the last tensor.
    pub fn formula(&self, tensor: u32) -> Option<&Expr>
        ensures { option_map (λ f. formula_of f.now) result
            ≡ slice_index_or (map (λ t. t.formula) (plain self.now).tensors) tensor None }
    {
        match self.tensors.get(tensor as usize) {
            Some(tensor) => match &tensor.formula {
                Some(formula) => Some(formula),
                None => None,
            },
            None => None,
        }
    }
}
