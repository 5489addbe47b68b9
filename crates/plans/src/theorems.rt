// Theorems about the definitions, each on a function that only carries it.
ghost use Rattle.plans.specs.CallsInWords.{StepsInWords};
ghost use Rattle.plans.specs.LoadLaw.{LoadLaw};
ghost use Rattle.plans.specs.ModelLaw.{RunsFeasible, RunsRotate};
ghost use Rattle.plans.specs.PairLaw.{PairLaw};
ghost use Rattle.plans.specs.PlanRefusals.{PlanRefusals};
ghost use Rattle.plans.specs.RunKept.{ModelKeeps, RunsAccounted};
ghost use Rattle.plans.specs.RefusalLaws.{ChangeLaw, PackLaw};
ghost use Rattle.plans.specs.TransposeLaw.{TransposeLaw};

use crate::family::Family;

// A load is refused by the first refusal that applies, as is a table alone, for every limit; it is accepted
// exactly where the published definition of the representation admits the codes with the sequence.
pub fn load_law()
    ensures { LoadLaw }
{}

// Exchanging the axes is its own inverse, keeps floorplans feasible, and goes along with every load,
// change and refusal.
pub fn transpose_law()
    ensures { TransposeLaw }
{}

/// From a feasible floorplan every run of calls of the model leads to feasible states that rotate modules alone, and
/// keeps the law of runs: floorplans as published, least packings, and a plan that the answers account for. Its loads
/// and changes do what the words say. The answers account for the plan from every other floorplan too.
pub fn model_law<F: Family>()
    ensures feasible { RunsFeasible F.Family.length_of }
    ensures rotations { RunsRotate F.Family.length_of }
    ensures words { StepsInWords }
    ensures accounts { RunsAccounted F.Family.kind_of }
    ensures kept { ModelKeeps F.Family.kind_of }
{}

// A change, each packing call, and each call of a plan is refused by the first refusal that applies, but for
// "no place"; and what a plan refuses leaves its state.
pub fn first_refusals<L>()
    ensures change { ChangeLaw }
    ensures packing { PackLaw L }
    ensures plan { PlanRefusals }
{}

// Two sequences of the same modules determine a feasible floorplan, every feasible floorplan is
// determined by such a pair, and each is got from the other.
pub fn pair_law()
    ensures { PairLaw }
{}
