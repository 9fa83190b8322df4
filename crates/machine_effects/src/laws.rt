//! Laws of the machine. The functions do nothing: their contracts are the laws.

ghost use Rattle.machine_effects.specs.Laws.{BoardStepsAsMachine, MachineStepsAsBoard, LooksAsTheBoard, MachineStepsInOneWay, CodeChangesByEffects};
ghost use Rattle.machine_effects.specs.Laws.{MachineChangesByEffects, SeenByWords, MachineIsBlind, PushesAlike, CodeKeepsTheHandler};
ghost use Rattle.machine_effects.specs.Laws.{MachineWordsStayWords, CodeWordsStayWords, WordsStayWords, StepLeavesItWhole, BoundaryKeepsWords};
ghost use Rattle.machine_effects.specs.Laws.{AcceptanceKeepsWords, MachineIsOfWords, PowerUpIsTheMachines, PowerUpKeepsWords, FreshMachine, FreshIsWhole};
ghost use Rattle.machine_effects.specs.Laws.{ChargeKeepsWords, StepAcceptsBySends, ChargeAcceptsBySends, WorldByItsParts};

/// Each step of a whole board at which no acceptance is due is the machine's step, with the same effects and cycles, or the
/// same stop with the readings that were taken before it, and leaves the port EVENT; or the machine's step ends by a bus fault. Each
/// step of the machine that a board is, that doesn't end so, is a step of the board.
#[tactic(auto, using(crate::proofs::Steps::board_steps_as_machine, crate::proofs::Steps::machine_steps_as_board))]
pub fn steps_are_the_machines()
    ensures forth { BoardStepsAsMachine }
    ensures back { MachineStepsAsBoard }
{}

/// An instruction that sees what a whole board holds in the ring does as on the board, and leaves the port EVENT, or ends by a bus
/// fault. Whether it looks there is told by the words at PC.
#[tactic(auto, using(crate::proofs::Steps::looks_as_the_board, crate::proofs::Seen::seen_by_words))]
pub fn instructions_look_as_on_the_board()
    ensures same { LooksAsTheBoard }
    ensures told { SeenByWords }
{}

/// An instruction of code does the same where FRAM differs from the handler on, and RAM below SP; and a push or a call writes the same word.
#[tactic(auto, using(crate::proofs::Blind::machine_is_blind, crate::proofs::Pushes::pushes_alike))]
pub fn machine_is_blind()
    ensures same { MachineIsBlind }
    ensures pushes { PushesAlike }
{}

/// The machine steps in one way.
#[tactic(auto, using(crate::proofs::Steps::machine_steps_in_one_way))]
pub fn machine_steps_in_one_way()
    ensures { MachineStepsInOneWay }
{}

/// A step of the machine changes FRAM by its stores and the readings left by its takes; one that stops takes alone.
#[tactic(auto, using(crate::proofs::Logs::machine_changes_by_effects))]
pub fn machine_changes_by_effects()
    ensures { MachineChangesByEffects }
{}

/// So does a step of code that stays.
#[tactic(auto, using(crate::proofs::Logs::code_changes_by_effects))]
pub fn code_changes_by_effects()
    ensures { CodeChangesByEffects }
{}

/// It leaves FRAM from the handler on.
#[tactic(auto, using(crate::proofs::Handler::code_keeps_the_handler))]
pub fn code_keeps_the_handler()
    ensures { CodeKeepsTheHandler }
{}

/// What holds words alone holds words alone after a step: the board, the machine that it is, and code that stays.
pub fn words_stay_words()
    ensures board { WordsStayWords }
    ensures machine { MachineWordsStayWords }
    ensures code { CodeWordsStayWords }
    ensures view { MachineIsOfWords }
{}

/// A step leaves a whole board.
pub fn steps_leave_boards_whole()
    ensures { StepLeavesItWhole }
{}

/// The boundary behind a step, at which events arise, an acceptance and a whole charge leave a whole board of words.
pub fn boards_of_words_stay_so()
    ensures boundary { BoundaryKeepsWords }
    ensures acceptance { AcceptanceKeepsWords }
    ensures charge { ChargeKeepsWords }
{}

/// A power-up with any words is the machine's, and leaves a whole board of words.
#[tactic(auto, using(crate::proofs::Views::power_up_is_the_machines, crate::proofs::Words::power_up_keeps_words))]
pub fn power_up_is_the_machines()
    ensures same { PowerUpIsTheMachines }
    ensures words { PowerUpKeepsWords }
{}

/// A fresh board as a machine; it is whole, and holds words where its FRAM, its readings and its events do.
pub fn fresh_board_is_a_machine()
    ensures view { FreshMachine }
    ensures whole { FreshIsWhole }
{}

/// The word that the moment of a step tells as accepted is the one that its effects make the receiver accept; and so with the
/// words of a charge's moments.
#[tactic(auto, using(crate::proofs::Accepted::step_accepts_by_sends, crate::proofs::Accepted::charge_accepts_by_sends))]
pub fn charges_accept_by_their_sends()
    ensures step { StepAcceptsBySends }
    ensures charge { ChargeAcceptsBySends }
{}

/// The world after effects is FRAM and the accepted words after them.
#[tactic(auto, using(crate::proofs::Worlds::world_by_its_parts))]
pub fn world_is_its_parts()
    ensures { WorldByItsParts }
{}
