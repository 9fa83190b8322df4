//! Marks of shared variables or of functions, by their numbers.
ghost use Rattle.std.specs.Prelude.{◌≡◌, ◌≤◌, length, false, if◌then◌else◌, slice_index_or};
ghost use Rattle.cost_bound.specs.Counts.{some_called_from};
ghost use Rattle.cost_bound.specs.Rooms.{AreMarked};
ghost use Rattle.cost_bound.specs.Machine.{known_of};

use crate::SHARED;
use crate::function_summaries::FunctionSummary;

/// Sets the marks that others have.
pub fn add_marks(marks: &mut [bool; SHARED], more: &[bool; SHARED])
    ensures { AreMarked marks.old marks.new (λ i. slice_index_or more.now i false) }
{
    for i in 0..SHARED {
        marks[i] = marks[i] || more[i];
    }
}

// Sets the marks of what the function assigns, where it is called.
fn mark_assigned_if(called: bool, function: &FunctionSummary, marks: &mut [bool; SHARED])
    ensures { AreMarked marks.old marks.new (λ i. if called then slice_index_or function.now.assigns i false else false) }
{
    if called {
        add_marks(marks, &function.assigns);
    }
}

/// Sets the marks of the shared variables that the called functions assign.
pub fn mark_what_calls_assign(
    functions: &[FunctionSummary],
    calls: &[bool; SHARED],
    marks: &mut [bool; SHARED],
)
    requires few { length functions.now ≤ 64 }
    ensures { AreMarked marks.old marks.new
        (λ i. some_called_from (λ k. slice_index_or calls.now k false) (λ s. s.assigns i) 0 (known_of functions.now)) }
{
    for k in (0..functions.len()).rev() {
        mark_assigned_if(calls[k], &functions[k], marks);
    }
}

// Sets the marks of what the function reaches, where it is called.
fn mark_reached_if(called: bool, function: &FunctionSummary, marks: &mut [bool; SHARED])
    ensures { AreMarked marks.old marks.new (λ i. if called then slice_index_or function.now.reaches i false else false) }
{
    if called {
        add_marks(marks, &function.reaches);
    }
}

/// Sets the marks of the functions that the called functions reach.
pub fn mark_what_calls_reach(
    functions: &[FunctionSummary],
    calls: &[bool; SHARED],
    marks: &mut [bool; SHARED],
)
    requires few { length functions.now ≤ 64 }
    ensures { AreMarked marks.old marks.new
        (λ i. some_called_from (λ k. slice_index_or calls.now k false) (λ s. s.reaches i) 0 (known_of functions.now)) }
{
    for k in (0..functions.len()).rev() {
        mark_reached_if(calls[k], &functions[k], marks);
    }
}
