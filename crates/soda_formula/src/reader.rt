use crate::frame::{Fed, Mode, Reader};
use crate::lists::{behind_component, component, index, index_closed, magnitude};
use crate::marks::behind_operand;
use crate::names::{begun, opened};
use crate::stack::alone;
use crate::trees::value;
use crate::values::{behind_index, behind_name};
use crate::{NoMemory, Written};
use soda_words::Placed;
use sqlite_items::Items;
use std::alloc::Global;

impl Reader {
    ghost use Rattle.std.specs.Prelude.{◌≡◌, IfOk, Some, option_map};
    ghost use Rattle.soda_formula.specs.machine.Steps.{start, feed, finish};
    ghost use Rattle.soda_formula.specs.Tree.{term_of};
    ghost use Rattle.soda_formula.specs.machine.Views.{mode_of, frames_of, state_of, IsFed};

    /// Where a formula begins.
    pub(crate) fn new(alloc: Global) -> Reader
        ensures { Some (state_of result) ≡ start }
    {
        Reader {
            mode: Mode::Wanted,
            frames: Items::new(alloc),
        }
    }

    /// The formula that ends here, if one does.
    pub(crate) fn finish(self, alloc: Global) -> Result<Option<Written>, NoMemory>
        ensures { IfOk result (λ w. option_map term_of w ≡ finish (state_of self)) }
    {
        let Reader { mode, frames } = self;
        match mode {
            Mode::Whole(operand) => alone(alloc, frames, operand),
            Mode::Named(param) => alone(alloc, frames, value(param, Items::new(alloc))),
            Mode::Indexed(param, indexes) => alone(alloc, frames, value(param, indexes)),
            Mode::Wanted => Ok(None),
            Mode::Called(call) => {
                drop(call);
                Ok(None)
            }
            Mode::Component(tensor, offsets)
            | Mode::Magnitude(tensor, offsets)
            | Mode::BehindComponent(tensor, offsets) => {
                drop(tensor);
                drop(offsets);
                Ok(None)
            }
            Mode::Index(param, indexes) | Mode::Close(param, indexes) => {
                drop(param);
                drop(indexes);
                Ok(None)
            }
        }
    }

    /// What the next token does.
    pub(crate) fn feed(self, alloc: Global, placed: &Placed) -> Result<Fed, NoMemory>
        ensures { IfOk result
            (IsFed (feed (mode_of self.mode) (frames_of self.frames) placed.now) (finish (state_of self))) }
    {
        let Reader { mode, frames } = self;
        let token = &placed.token;
        match mode {
            Mode::Wanted => begun(alloc, frames, placed),
            Mode::Called(call) => opened(frames, call, token),
            Mode::Whole(operand) => behind_operand(alloc, frames, operand, token),
            Mode::Named(name) => behind_name(alloc, frames, name, token),
            Mode::Component(tensor, offsets) => component(frames, tensor, offsets, token),
            Mode::Magnitude(tensor, offsets) => magnitude(frames, tensor, offsets, token),
            Mode::BehindComponent(tensor, offsets) => {
                Ok(behind_component(frames, tensor, offsets, token))
            }
            Mode::Index(param, indexes) => index(frames, param, indexes, token),
            Mode::Close(param, indexes) => Ok(index_closed(frames, param, indexes, token)),
            Mode::Indexed(param, indexes) => behind_index(alloc, frames, param, indexes, token),
        }
    }
}
