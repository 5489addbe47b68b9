// Any one call of a plan, as data.
ghost use Rattle.planner.specs.PlanCalls.{Performs};

use crate::decision::{Decision, Undecided};
use crate::plan::Plan;
use lengths::Length;
use packing::Pin;
use plans::{
    Change, Chip, PackRefusal, PinnedRefusal, Placed, PlanChangeRefusal, PlanLoadRefusal,
    RotationRefusal, Sides,
};
use representations::Representation;

/// A call with its arguments, named as the method that makes it. A packing's result list is handed to `Plan::perform`
/// beside it.
pub enum PlanCall<'a, L> {
    /// a table of codes, row after row, and its packing sequence
    Load(&'a [u8], &'a [usize]),
    Change(Change),
    Keep(Decision),
    Undo(Decision),
    Pack(&'a [Sides<L>]),
    PackPinned(&'a [Sides<L>], Pin<L>),
    PackWithRotation(&'a [Sides<L>], usize),
    Modules,
    Code(usize, usize),
    ModuleAt(usize),
    IsRotated(usize),
    IsOnTrial,
}

/// What a call answers: a variant for each kind of call.
pub enum PlanAnswer<L> {
    Loaded(Result<(), PlanLoadRefusal>),
    Changed(Result<Decision, PlanChangeRefusal>),
    Kept(Result<(), Undecided>),
    Undone(Result<(), Undecided>),
    Packed(Result<Chip<L>, PackRefusal>),
    PackedPinned(Result<Chip<L>, PinnedRefusal>),
    PackedRotated(Result<Chip<L>, RotationRefusal>),
    HasModules(usize),
    HasCode(u8),
    HasModule(Option<usize>),
    Rotated(bool),
    OnTrial(bool),
}

impl<R: Representation> Plan<R> {
    /// Makes a call that is given as data, by the method of its name. A packing writes into the list as that method
    /// does, and any other call leaves it.
    pub fn perform<L: Length>(
        &mut self,
        call: PlanCall<'_, L>,
        results: &mut [Placed<L>],
    ) -> PlanAnswer<L>
        ensures { Performs L.Length.kind self.old call.entry results.old result results.new self.new }
    {
        match call {
            PlanCall::Load(codes, sequence) => PlanAnswer::Loaded(self.load(codes, sequence)),
            PlanCall::Change(change) => PlanAnswer::Changed(self.change(change)),
            PlanCall::Keep(decision) => PlanAnswer::Kept(self.keep(decision)),
            PlanCall::Undo(decision) => PlanAnswer::Undone(self.undo(decision)),
            PlanCall::Pack(sides) => PlanAnswer::Packed(self.pack(sides, results)),
            PlanCall::PackPinned(sides, pin) => {
                PlanAnswer::PackedPinned(self.pack_pinned(sides, results, pin))
            }
            PlanCall::PackWithRotation(sides, module) => {
                PlanAnswer::PackedRotated(self.pack_with_rotation(sides, results, module))
            }
            PlanCall::Modules => PlanAnswer::HasModules(self.modules()),
            PlanCall::Code(i, j) => PlanAnswer::HasCode(self.code(i, j)),
            PlanCall::ModuleAt(place) => PlanAnswer::HasModule(self.module_at(place)),
            PlanCall::IsRotated(module) => PlanAnswer::Rotated(self.is_rotated(module)),
            PlanCall::IsOnTrial => PlanAnswer::OnTrial(self.is_on_trial()),
        }
    }
}
