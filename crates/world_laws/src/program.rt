//! Runs of the customer's program, as what its client does in the world.

ghost use Rattle.world_laws.specs.ClientActs.{ActsAreSteps};
ghost use Rattle.world_laws.specs.ProgramRuns.{RunsAreActs};

/// What a client does is a step of the world in which it is one of the clients.
pub fn acts_are_steps()
    ensures { ActsAreSteps }
{}

/// A run of the customer's program in which no save failed is what its client does, one act after another.
pub fn runs_are_acts()
    ensures { RunsAreActs }
{}
