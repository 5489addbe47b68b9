// The theorems about the two graphs of a feasible floorplan, their sequence and their changes.
ghost use Rattle.plans.specs.ChangesFeasible.{ChangesFeasible};
ghost use Rattle.plans.specs.ChangesInWords.{ChangesAsTold, RotationsLeave};
ghost use Rattle.plans.specs.OneSequence.{SequenceDetermined};
ghost use Rattle.plans.specs.Orders.{CountingOrders};
ghost use Rattle.plans.specs.ReductionEdges.{ReductionEdges};
ghost use Rattle.plans.specs.Repair.{RepairFits};

// Placing by count gives the one list along a total order, and so the one sequence that fits a feasible table.
pub fn one_sequence()
    ensures counted { CountingOrders }
    ensures determined { SequenceDetermined }
{}

// Accepted changes keep a floorplan feasible and do what the words say; a reduction edge is one with no other
// path; the published repair of the sequence gives the one that fits.
pub fn changes_of_graphs()
    ensures feasible { ChangesFeasible }
    ensures told { ChangesAsTold }
    ensures rotations { RotationsLeave }
    ensures reduction { ReductionEdges }
    ensures repair { RepairFits }
{}
