// Placing modules one after another, along the packing sequence.
ghost use Rattle.std.specs.Prelude.{◌≡◌, ◌+◌, ◌<◌, ◌≤◌, length};
ghost use Rattle.plans.specs.Kinds.{sum_limit};
ghost use Rattle.plans.specs.Packing.{side_of};
ghost use Rattle.packing.specs.Steps.{ReadyToPack, NextPlace, PlacesOne, PlacesAll, record_at, near_corner};
ghost use Rattle.packing.specs.Tasks.{task_of, pins_of};

use crate::job::Job;
use crate::pin::{Corner, Pin};
use lengths::Length;
use plans::{Placed, Sides};
use representations::Representation;

// Where module i begins: at its pin, or else where it is free to.
fn near_corner<L: Length>(pin: Option<Pin<L>>, i: usize, free: Corner<L>) -> Corner<L>
    ensures { result ≡ near_corner L.Length.kind (pins_of pin) i free }
{
    match pin {
        Some(pin) if pin.module == i => pin.corner(),
        _ => free,
    }
}

// The record of a module that begins at a corner, with its sides; the two together stay within the limit.
fn record_at<L: Length>(near: Corner<L>, side: Sides<L>) -> Placed<L>
    requires across { L.Length.kind.reach near.across + L.Length.kind.reach side.width ≤ sum_limit }
    requires up { L.Length.kind.reach near.up + L.Length.kind.reach side.height ≤ sum_limit }
    ensures { result ≡ record_at L.Length.kind near side }
{
    Placed {
        left: near.across,
        bottom: near.up,
        right: near.across.plus(side.width),
        top: near.up.plus(side.height),
    }
}

impl<'a, R: Representation, L: Length> Job<'a, R, L> {
    // The sides of module i across and upwards, exchanged where it is rotated.
    fn sides_of(&self, i: usize) -> Sides<L>
        requires { i < length self.now.sides.now }
        ensures { result ≡ record { width = side_of L.Length.kind (task_of R.Representation.means self.now) 1 i; height = side_of L.Length.kind (task_of R.Representation.means self.now) 2 i } }
    {
        let sides = self.sides[i];
        if self.rotated.contains(i) {
            Sides {
                width: sides.height,
                height: sides.width,
            }
        } else {
            sides
        }
    }

    // Writes the record of the module at a place of the sequence, where those before it have theirs. Whether
    // no module runs past where this one is pinned.
    fn place_module(&self, pin: Option<Pin<L>>, place: usize, results: &mut [Placed<L>]) -> bool
        requires { NextPlace L.Length.kind (task_of R.Representation.means self.now) (pins_of pin) place results.old }
        ensures { PlacesOne L.Length.kind (task_of R.Representation.means self.now) (pins_of pin) place results.old results.new result }
    {
        let i = self.representation.module_at(place).unwrap();
        let free = self.free_corner(place, i, results);
        let near = near_corner(pin, i, free);
        results[i] = record_at(near, self.sides_of(i));
        free.at_most(near)
    }

    // Writes the record of every module. Whether no module is pushed past its pin.
    pub(crate) fn place_all(&self, pin: Option<Pin<L>>, results: &mut [Placed<L>]) -> bool
        requires { ReadyToPack L.Length.kind (task_of R.Representation.means self.now) (pins_of pin) (length results.old) }
        ensures { PlacesAll L.Length.kind (task_of R.Representation.means self.now) (pins_of pin) results.old results.new result }
    {
        let mut fits = true;
        // A turn writes into the list, which a chain's closure could not be told to have done.
        for place in 0..self.representation.modules() {
            fits &= self.place_module(pin, place, results);
        }
        fits
    }
}
