//! Plans of tasks.

use std::marker::Model;

/// The shared variables that a task works on in copies, by their numbers in order of declaration.
#[derive(Drop)]
pub struct TaskPlan {
    pub(crate) private_scalars: Vec<u32>,
    pub(crate) versioned_arrays: Vec<u32>,
}

impl Model for TaskPlan {
    ghost use Rattle.war_analysis.specs.PlanValue.{TaskPlanValue};

    ghost Value = { TaskPlanValue };

    ghost view = { λ p. record { private_scalars = p.private_scalars.items; versioned_arrays = p.versioned_arrays.items } };
}

impl TaskPlan {
    ghost use Rattle.std.specs.Prelude.{◌≡◌};

    /// The scalars: each is copied at the start of an attempt, read and written in its copy, and written back by the commit.
    pub fn private_scalars(&self) -> &[u32]
        ensures { result.now ≡ self.now.private_scalars }
    {
        self.private_scalars.as_slice()
    }

    /// The arrays: an element is copied when the attempt first writes it, as its version word tells.
    pub fn versioned_arrays(&self) -> &[u32]
        ensures { result.now ≡ self.now.versioned_arrays }
    {
        self.versioned_arrays.as_slice()
    }
}

/// What the tasks of a source work on in copies, in order of declaration.
#[derive(Drop)]
pub struct Plan {
    pub(crate) tasks: Vec<TaskPlan>,
}

impl Model for Plan {
    ghost use Rattle.std.specs.Prelude.{List};
    ghost use Rattle.war_analysis.specs.PlanValue.{TaskPlanValue};

    ghost Value = { List TaskPlanValue };

    ghost view = { λ p. p.tasks.items };
}

impl Plan {
    ghost use Rattle.std.specs.Prelude.{◌≡◌};

    /// The plan of each task.
    pub fn tasks(&self) -> &[TaskPlan]
        ensures { result.now ≡ self.now }
    {
        self.tasks.as_slice()
    }
}
