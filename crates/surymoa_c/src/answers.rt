// Writing answers as words of 64 bits.
use lengths::Plain;
use packing::{Chip, PackRefusal, PinnedRefusal, Placed, RotationRefusal};
use plans::{LoadRefusal, PlanRefusal, Refusal};

// The words written, at the start of a list; what has no room there is not written.
#[derive(Drop)]
pub(crate) struct AnswerWords<'a> {
    words: &'a mut [u64],
    count: usize,
}

impl<'a> AnswerWords<'a> {
    // No words, to be written at the start of a list.
    pub(crate) fn new(words: &'a mut [u64]) -> AnswerWords<'a> {
        AnswerWords { words, count: 0 }
    }

    // How many words are written.
    pub(crate) fn count(&self) -> usize {
        self.count
    }

    // Writes a word, where there is room for it.
    pub(crate) fn put(&mut self, word: u64) {
        if self.count < self.words.len() {
            self.words[self.count] = word;
            self.count += 1;
        }
    }

    // That a call is done, or the number of its refusal and up to two values that go with it.
    fn put_number(&mut self, number: u16, a: usize, b: usize) {
        self.put(u64::from(number));
        self.put(a as u64);
        self.put(b as u64);
    }

    // An answer that tells nothing but its number.
    pub(crate) fn put_answer<E: Refusal + Drop>(&mut self, answer: Result<(), E>) {
        match answer {
            Ok(()) => self.put_number(0, 0, 0),
            Err(refusal) => self.put_number(refusal.number(), 0, 0),
        }
    }

    // The answer of a load, with the pair or the place that it tells.
    pub(crate) fn put_load(&mut self, answer: Result<(), PlanRefusal<LoadRefusal>>) {
        match answer {
            Ok(()) => self.put_number(0, 0, 0),
            Err(refusal) => {
                let (a, b) = pair_told(refusal);
                self.put_number(refusal.number(), a, b)
            }
        }
    }

    // The answer of a packing, with the module that its refusal tells, and the result list.
    pub(crate) fn put_packed(
        &mut self,
        answer: Result<Chip<Plain>, PackingTold>,
        results: &[Placed<Plain>],
    ) {
        match answer {
            Ok(chip) => {
                self.put_number(0, 0, 0);
                self.put_length(chip.width);
                self.put_length(chip.height);
                self.put(chip.area);
            }
            Err(told) => self.put_number(told.number, told.module, 0),
        }
        for placed in results {
            self.put_length(placed.left);
            self.put_length(placed.bottom);
            self.put_length(placed.right);
            self.put_length(placed.top);
        }
    }

    fn put_length(&mut self, length: Plain) {
        self.put(u64::from(length.0));
    }
}

// A packing's refusal by its number, with the module that it tells, 0 where it tells none.
#[derive(Clone, Copy)]
pub(crate) struct PackingTold {
    number: u16,
    module: usize,
}

impl PackingTold {
    pub(crate) fn of_pack(refusal: PackRefusal) -> PackingTold {
        PackingTold {
            number: refusal.number(),
            module: module_told(refusal),
        }
    }

    pub(crate) fn of_pinned(refusal: PinnedRefusal) -> PackingTold {
        match refusal {
            PinnedRefusal::Packing(refusal) => PackingTold::of_pack(refusal),
            _ => PackingTold {
                number: refusal.number(),
                module: 0,
            },
        }
    }

    pub(crate) fn of_rotation(refusal: RotationRefusal) -> PackingTold {
        match refusal {
            RotationRefusal::Packing(refusal) => PackingTold::of_pack(refusal),
            RotationRefusal::NoModule => PackingTold {
                number: refusal.number(),
                module: 0,
            },
        }
    }
}

// The module that a packing's refusal tells, 0 where it tells none.
fn module_told(refusal: PackRefusal) -> usize {
    match refusal {
        PackRefusal::WrongSide(i) => i,
        _ => 0,
    }
}

// The two values of a load's refusal, zero where it tells none.
fn pair_told(refusal: PlanRefusal<LoadRefusal>) -> (usize, usize) {
    match refusal {
        PlanRefusal::Refused(
            LoadRefusal::WrongCode(i, j)
            | LoadRefusal::SelfRelated(i, j)
            | LoadRefusal::NotOneEdge(i, j)
            | LoadRefusal::NotClosed(i, j)
            | LoadRefusal::Backwards(i, j),
        ) => (i, j),
        PlanRefusal::Refused(LoadRefusal::WrongPlace(place)) => (place, 0),
        PlanRefusal::Refused(LoadRefusal::WrongShape) | PlanRefusal::TrialOpen => (0, 0),
    }
}
