//! Laws of the forms. The functions do nothing: their contracts are the laws.

ghost use Rattle.code_forms.specs.Laws.{PoweredHasACore, FormsDoAsInstructions, StraightCodeLeads, FormsReadFromSp, FormsStandWherePlaced, PlacedIsTidy};
ghost use Rattle.code_forms.specs.Laws.{FormsKeepTheStack, CodeInFramSteps, CodeGoesUndisturbed, CodeStaysPrepared, CodeStaysOpen};

/// A machine that was powered up has SR and R3 at 0, so that its registers can be told apart.
pub fn powered_machine_has_a_core()
    ensures { PoweredHasACore }
{}

/// A form does what its instruction does on the machine, with its effects and its cycles, where it has what it needs.
#[tactic(auto, using(crate::proofs::Uncovered::form_does))]
pub fn forms_do_as_instructions()
    ensures { FormsDoAsInstructions }
{}

/// Straight code, wherever it stands, leads where its forms do one after another.
#[tactic(auto, using(crate::proofs::Blocks::straight_code_leads))]
pub fn straight_code_leads()
    ensures { StraightCodeLeads }
{}

/// A form that has what it needs reads no word of RAM below SP.
#[tactic(auto, using(crate::proofs::FromSp::forms_read_from_sp))]
pub fn forms_read_from_sp()
    ensures { FormsReadFromSp }
{}

/// Where each form has what it needs, SP stays between the addresses that its code keeps to.
#[tactic(auto, using(crate::proofs::Stacks::forms_keep_the_stack))]
pub fn forms_keep_the_stack()
    ensures { FormsKeepTheStack }
{}

/// Forms stand where they are placed, at even addresses with room behind them.
pub fn placed_code_stands()
    ensures stands { FormsStandWherePlaced }
    ensures tidy { PlacedIsTidy }
{}

/// A machine whose FRAM holds instructions steps as the code that they are, where that doesn't go astray.
#[tactic(auto, using(crate::proofs::Placed::code_in_fram_steps))]
pub fn code_in_fram_steps()
    ensures { CodeInFramSteps }
{}

/// Where the CPU accepts no interrupt in front of a step of code without events, it accepts none behind it. Where it accepts one behind a
/// step of code with events, FRAM names a handler and SP has room for it; from there on the CPU accepts interrupts behind each step.
pub fn code_keeps_the_rules_of_interrupts()
    ensures undisturbed { CodeGoesUndisturbed }
    ensures prepared { CodeStaysPrepared }
    ensures open { CodeStaysOpen }
{}
