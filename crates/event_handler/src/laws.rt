//! Laws of the handler. The functions do nothing: their contracts are the laws.

ghost use Rattle.event_handler.specs.Laws.{HandlerBegins, HandlerGoesOn, HandlerTakesItsCycles, HandlerKeepsTheRest};

/// A board that accepts an event, with the handler in FRAM and room for it on the stack, makes the acceptance, in six cycles, and
/// then is at the handler's first instruction.
pub fn handler_begins()
    ensures { HandlerBegins }
{}

/// A board at an instruction of the handler executes it, whatever waits in the port EVENT, and then is at the next one or has
/// returned: then all registers are as before the acceptance, and the word of the event stands in the ring, unless that was full.
/// The word is stored before HEAD is raised.
pub fn handler_goes_on()
    ensures { HandlerGoesOn }
{}

/// From the acceptance to behind the return it takes 48 cycles at most, in at most 15 instructions.
#[tactic(auto, using(crate::proofs::Keeps::handler_takes_its_cycles))]
pub fn handler_takes_its_cycles()
    ensures { HandlerTakesItsCycles }
{}

/// At each boundary on the way, and behind the return, FRAM but the ring, RAM from SP up, the readings, OUTNUM and the receiver are as
/// they were at the acceptance.
#[tactic(auto, using(crate::proofs::Keeps::handler_keeps_the_rest))]
pub fn handler_keeps_the_rest()
    ensures { HandlerKeepsTheRest }
{}
