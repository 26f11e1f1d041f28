//! The machine in examples that the check computes. Each function does nothing; what it ensures is
//! that the machine answers as the rules say, in rooms small enough to be followed by hand. Steps
//! that an independent program sampled from random runs stand in `room_samples`.
ghost use Rattle.room_model.specs.CallExamples.{CallExamples};
ghost use Rattle.room_model.specs.ClosedExamples.{ClosedExamples};
ghost use Rattle.room_model.specs.IncidentExamples.{IncidentExamples};
ghost use Rattle.room_model.specs.JobExamples.{JobExamples};
ghost use Rattle.room_model.specs.MoveExamples.{MoveExamples};
ghost use Rattle.room_model.specs.LoansAndOffers.{LoanExamples, OfferExamples};
ghost use Rattle.room_model.specs.PlaceExamples.{PlaceExamples};
ghost use Rattle.room_model.specs.ProposalExamples.{ProposalExamples};
ghost use Rattle.room_model.specs.QueueExamples.{QueueExamples};
ghost use Rattle.room_model.specs.ReportExamples.{ReportExamples};
ghost use Rattle.room_model.specs.TimesExamples.{TimesExamples};
ghost use Rattle.room_model.specs.VehicleExamples.{VehicleExamples};

/// References, distances, areas and plans.
pub fn place_examples()
    ensures { PlaceExamples }
{}

/// Which incident a call is linked to, and what it does to it.
pub fn call_examples()
    ensures { CallExamples }
{}

/// Lists of incidents, merging, changed needs and closing.
pub fn incident_examples()
    ensures { IncidentExamples }
{}

/// Mobilising and standing down, orders, posts, going on and off duty.
pub fn vehicle_examples()
    ensures { VehicleExamples }
{}

/// Moves: a divert, several vehicles at once, and that one refusal undoes all.
pub fn move_examples()
    ensures { MoveExamples }
{}

/// What a crew is told of its incident.
pub fn job_examples()
    ensures { JobExamples }
{}

/// Offering a vehicle, and what becomes of the offer.
pub fn offer_examples()
    ensures { OfferExamples }
{}

/// Lending, recalling and giving back.
pub fn loan_examples()
    ensures { LoanExamples }
{}

/// What the buttons of a crew come to.
pub fn report_examples()
    ensures { ReportExamples }
{}

/// Which vehicles are proposed.
pub fn proposal_examples()
    ensures { ProposalExamples }
{}

/// What stands in the queue.
pub fn queue_examples()
    ensures { QueueExamples }
{}

/// The times of a day.
pub fn times_examples()
    ensures { TimesExamples }
{}

/// What is found of incidents that are over, and the times of a day by class.
pub fn closed_examples()
    ensures { ClosedExamples }
{}
