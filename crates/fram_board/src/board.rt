//! The board.

ghost use Rattle.std.specs.Prelude.{◌≡◌, ℕ, ◌+◌, ◌-◌, ◌^◌, ◌<◌, ◌≤◌, length, None, IfOk, IfErr, IfSome, IfNone, OnErr};
ghost use Rattle.msp_step.specs.Registers.{registers_of};
ghost use Rattle.msp_step.specs.Step.{is_interruptible};
ghost use Rattle.state_text.specs.address_space.Limits.{fram_words};
ghost use Rattle.state_text.specs.image_text.ImageValue.{word_at};
ghost use Rattle.fram_board.specs.Board.{accepted_word, receiver_after, started, fresh, fresh_sender, fresh_listener, powered, filled, executed};
ghost use Rattle.fram_board.specs.Board.{IsNextInstruction, IsStoppedBy, packet_brought, acknowledgement_brought};
ghost use Rattle.fram_board.specs.declared.radio.Radio.TheVariants.{Alone};
ghost use Rattle.fram_board.specs.Board.{is_accepting, acceptance, performed, IsNextStep, HasNoStep, step_cycles, at_boundary, board_behind};
ghost use Rattle.fram_board.specs.declared.board.NextStep.TheVariants.{Acceptance};
ghost use Rattle.fram_board.specs.Saved.{saved};
ghost use Rattle.fram_board.specs.Steps.{AreNextWords, AreWordsOfStep, StepCosts, IsStepOf, KeepsAllButTaken, OffersOneAtMost, IsBoard};

use crate::bus::{Devices, Output};
use crate::events::Heard;
use crate::radio::Radio;
use crate::receiver::Receiver;
use msp_cycles::cycles;
use msp_isa::{Instr, Reg};
use msp_step::{Cpu, Stop, Words, current_instruction, current_words, execute};
use state_text::{Image, State};
use std::alloc::{AllocError, Global};
use std::marker::Model;

// The clock cycles of an acceptance.
const ACCEPTANCE_CYCLES: u32 = 6;

/// What a step of the board did.
#[derive(Clone, Copy, PartialEq, Eq, Debug)]
pub struct Stepped {
    /// Clock cycles, 1 to 6.
    pub cycles: u32,
    /// The byte address of the one write to memory or a port.
    pub wrote: Option<u16>,
    /// How many readings it took, 0 to 2.
    pub took: u32,
    /// The word that the receiver accepted.
    pub accepted: Option<u16>,
    /// What it read of the port EVENT.
    pub heard: Heard,
    /// What it sent by a radio: the number and the word of a packet, or an acknowledgement and 0.
    pub sent: Option<(u16, u16)>,
}

/// A step of the board.
#[derive(Clone, Copy, PartialEq, Eq, Debug)]
pub enum NextStep {
    /// The instruction at PC is executed.
    Instruction(Instr),
    /// The event in the port EVENT is accepted: PC and SR are stored on the stack, and the CPU goes on at the vector.
    Acceptance,
}

/// The CPU with RAM, FRAM, a sensor and its readings, the events of a run, and a receiver; beside it one side of a radio, or none.
#[derive(Drop)]
pub struct Board {
    cpu: Cpu,
    devices: Devices,
    receiver: Receiver,
}

impl Model for Board {
    ghost use Rattle.std.specs.Prelude.{◌≡◌, None};
    ghost use Rattle.fram_board.specs.Board.{BoardValue};

    ghost Value = { BoardValue };

    ghost view = { λ b. record {
      cpu = b.cpu;
      fram = b.devices.fram;
      ram = b.devices.ram;
      outnum = b.devices.outnum;
      readings = b.devices.readings;
      taken = b.devices.taken;
      receiver = b.receiver;
      line = b.devices.line;
      radio = b.devices.radio;
    } };

    // Between two instructions nothing is offered or sent.
    ghost invariant = { λ b. (b.devices.offered ≡ None) × (b.devices.sent ≡ None) };
}

/// The word that the receiver accepted of an instruction, and what the instruction sent.
#[derive(Clone, Copy)]
struct Emitted {
    accepted: Option<u16>,
    sent: Option<(u16, u16)>,
}

/// The receiver hears the word that an instruction offered. Answers the word if it is accepted, and what the instruction sent.
#[inline(always)]
fn receive(devices: &mut Devices, receiver: &mut Receiver) -> Emitted
    requires accepted { receiver.old.accepted < 2 ^ 64 - 1 }
    requires repeats { receiver.old.repeats < 2 ^ 64 - 1 }
    ensures word { result.accepted ≡ accepted_word devices.old.outnum devices.old.offered receiver.old }
    ensures sent { result.sent ≡ devices.old.sent }
    ensures devices { devices.new ≡ record devices.old { offered = None; sent = None } }
    ensures receiver { receiver.new ≡ receiver_after devices.old.outnum devices.old.offered receiver.old }
{
    match devices.take_output() {
        Output::Nothing => Emitted {
            accepted: None,
            sent: None,
        },
        Output::Offered(word) => Emitted {
            accepted: receiver.offer(devices.number(), word),
            sent: None,
        },
        Output::Sent(number, word) => Emitted {
            accepted: None,
            sent: Some((number, word)),
        },
    }
}

// The clock cycles of a step.
fn step_cycles(step: &NextStep) -> u32
    ensures { result ≡ step_cycles step.now }
{
    match step {
        NextStep::Instruction(instruction) => cycles(instruction),
        NextStep::Acceptance => ACCEPTANCE_CYCLES,
    }
}

// A board with this image in its FRAM, these readings and events, and this radio, whose receiver takes this number next.
fn started(
    alloc: Global,
    image: &Image,
    number: u16,
    readings: &[u16],
    events: &[(u32, u16)],
    radio: Radio,
) -> Result<Board, AllocError>
    requires readings { length readings.now ≤ 262144 }
    requires events { length events.now ≤ 65536 }
    ensures { IfOk result (λ b. b ≡ record (started image.now.words number readings.now events.now) { radio = radio }) }
{
    let devices = Devices::new(alloc, image.words(), readings, events, radio)?;
    Ok(Board {
        cpu: Cpu::new(devices.vector(), 0),
        devices,
        receiver: Receiver {
            first: number,
            accepted: 0,
            repeats: 0,
        },
    })
}

impl Board {
    /// A board with this image in its FRAM and these readings to take, as a power-up with fill word 0 leaves it. The events
    /// arise from its first power-up on: each behind so many steps, with its word, in this order. Fails where memory is refused.
    pub fn new(
        alloc: Global,
        image: &Image,
        readings: &[u16],
        events: &[(u32, u16)],
    ) -> Result<Board, AllocError>
        requires readings { length readings.now ≤ 262144 }
        requires events { length events.now ≤ 65536 }
        ensures { IfOk result (λ b. b ≡ fresh image.now.words readings.now events.now) }
    {
        started(alloc, image, 0, readings, events, Radio::Alone)
    }

    /// A board that sends by a radio, with the ports of that side, else as `new` makes it without events. Fails where memory is
    /// refused.
    pub fn new_sender(alloc: Global, image: &Image, readings: &[u16]) -> Result<Board, AllocError>
        requires { length readings.now ≤ 262144 }
        ensures { IfOk result (λ b. b ≡ fresh_sender image.now.words readings.now) }
    {
        started(alloc, image, 0, readings, &[], Radio::Sends(0))
    }

    /// A board that listens to a radio, with the ports of that side, else as `new` makes it without events. Fails where memory is
    /// refused.
    pub fn new_listener(alloc: Global, image: &Image, readings: &[u16]) -> Result<Board, AllocError>
        requires { length readings.now ≤ 262144 }
        ensures { IfOk result (λ b. b ≡ fresh_listener image.now.words readings.now) }
    {
        started(alloc, image, 0, readings, &[], Radio::Listens(0))
    }

    /// A board that goes on from a saved state: its FRAM and the number that its receiver takes next are the state's. Readings,
    /// events, steps, accepted words and repeats count from 0, and all else is as a power-up with fill word 0 leaves it. Fails
    /// where memory is refused.
    pub fn from_state(
        alloc: Global,
        state: &State,
        readings: &[u16],
        events: &[(u32, u16)],
    ) -> Result<Board, AllocError>
        requires readings { length readings.now ≤ 262144 }
        requires events { length events.now ≤ 65536 }
        ensures { IfOk result (λ b. b ≡ started state.now.image.words state.now.receiver readings.now events.now) }
    {
        started(
            alloc,
            &state.image,
            state.receiver,
            readings,
            events,
            Radio::Alone,
        )
    }

    /// Power comes back after a loss. FRAM, readings and receiver are as before; PC is the word at 0xFFFE with bit 0
    /// cleared and SR is 0; each word of RAM, OUTNUM, R4 to R15, and SP with bit 0 cleared hold the fill word. An event that
    /// waits in the port EVENT is lost, and those that are due arise. A board that sends has heard no acknowledgement.
    pub fn power_up(&mut self, fill: u16)
        ensures { self.new ≡ powered self.old (filled fill) }
    {
        self.devices.power_up(fill);
        self.cpu = Cpu::new(self.devices.vector(), fill);
    }

    /// A packet comes to the port EVENT of a board that listens, between two steps: it waits there, or is lost where the port is
    /// full. Nothing changes on another board. Takes no memory.
    pub fn bring_packet(&mut self, number: u16, word: u16)
        ensures { self.new ≡ packet_brought number word self.old }
    {
        self.devices.bring_packet(number, word);
    }

    /// An acknowledgement comes to a board that sends, between two steps: the greatest one that came since power came back is read
    /// at the port ACKS. Nothing changes on another board. Takes no memory.
    pub fn bring_ack(&mut self, number: u16)
        ensures { self.new ≡ acknowledgement_brought number self.old }
    {
        self.devices.bring_acknowledgement(number);
    }

    /// Whether the next step is an acceptance: an event waits in the port EVENT, GIE is set, and CPUOFF is clear.
    #[inline(always)]
    fn is_accepting(&self) -> bool
        ensures { result ≡ is_accepting self.now }
    {
        self.devices.events().is_full() && self.is_interruptible()
    }

    // Whether the CPU accepts an interrupt. Out of line, so that a step looks at the registers only where an event waits.
    #[inline(never)]
    fn is_interruptible(&self) -> bool
        ensures { result ≡ is_interruptible (registers_of self.now.cpu) }
    {
        self.cpu.is_interruptible()
    }

    /// The words of the instruction at PC, where that is the next step, or why none is made. Nothing where the next step is an
    /// acceptance. Stops with the causes of `next_step`.
    #[inline(always)]
    pub fn current_words(&self) -> Result<Option<Words>, Stop>
        ensures found { IfOk result (λ found. IfSome found (λ words. AreWordsOfStep self.now words)) }
        ensures accepting { IfOk result (λ found. IfNone found (IsNextStep self.now Acceptance)) }
        ensures none { IfErr result (λ stop. HasNoStep self.now stop) }
    {
        if self.is_accepting() {
            return Ok(None);
        }
        match current_words(&self.cpu, &self.devices) {
            Ok(words) => Ok(Some(words)),
            Err(stop) => Err(stop),
        }
    }

    /// The instruction at PC, or why none can be executed: `Off` where CPUOFF is set, a `Bus` fault of a fetch, or `Illegal`.
    fn current_instruction(&self) -> Result<Instr, Stop>
        ensures found { IfOk result (λ i. IsNextInstruction self.now i) }
        ensures none { IfErr result (λ stop. IsStoppedBy self.now stop) }
    {
        current_instruction(&self.cpu, &self.devices)
    }

    /// The next step: an acceptance where one is due, else the instruction at PC; or why there is none: `Off` where CPUOFF is
    /// set, a `Bus` fault of a fetch, or `Illegal`.
    pub fn next_step(&self) -> Result<NextStep, Stop>
        ensures found { IfOk result (λ n. IsNextStep self.now n) }
        ensures none { IfErr result (λ stop. HasNoStep self.now stop) }
    {
        if self.is_accepting() {
            return Ok(NextStep::Acceptance);
        }
        match self.current_instruction() {
            Ok(instruction) => Ok(NextStep::Instruction(instruction)),
            Err(stop) => Err(stop),
        }
    }

    /// The clock cycles of the next step, 1 to 6. Stops with the causes of `next_step`.
    pub fn cost(&self) -> Result<u32, Stop>
        ensures { StepCosts self.now result }
    {
        match self.next_step() {
            Ok(step) => Ok(step_cycles(&step)),
            Err(stop) => Err(stop),
        }
    }

    /// Executes an instruction as the one at PC, up to the boundary behind it. Stops with a `Bus` fault or `NoReading` at its
    /// first access that isn't served: then all is as before, but for the readings and the event that it had taken, which stay
    /// taken.
    #[inline(always)]
    pub fn execute(&mut self, instruction: &Instr) -> Result<Stepped, Stop>
        requires accepted { self.old.receiver.accepted < 2 ^ 64 - 1 }
        requires repeats { self.old.receiver.repeats < 2 ^ 64 - 1 }
        ensures answer { result ≡ (executed self.old instruction.now).answer }
        ensures board { self.new ≡ board_behind result (executed self.old instruction.now).board }
        ensures took { IfOk result (λ done. done.took ≤ 2) }
        ensures counts { OffersOneAtMost self.old.receiver self.new.receiver }
        ensures stopped { OnErr result (KeepsAllButTaken self.old self.new) }
    {
        let answer = self.execute_alone(instruction);
        if answer.is_ok() {
            self.devices.step();
        }
        answer
    }

    // The same without the boundary.
    #[inline(always)]
    fn execute_alone(&mut self, instruction: &Instr) -> Result<Stepped, Stop>
        requires accepted { self.old.receiver.accepted < 2 ^ 64 - 1 }
        requires repeats { self.old.receiver.repeats < 2 ^ 64 - 1 }
        ensures answer { result ≡ (executed self.old instruction.now).answer }
        ensures board { self.new ≡ (executed self.old instruction.now).board }
        ensures took { IfOk result (λ done. done.took ≤ 2) }
        ensures counts { OffersOneAtMost self.old.receiver self.new.receiver }
        ensures stopped { OnErr result (KeepsAllButTaken self.old self.new) }
    {
        let before = self.devices.taken();
        let answer = execute(&mut self.cpu, &mut self.devices, instruction);
        // Tells the proof that the register file is whole.
        let _pc = self.cpu.reg(Reg::Pc);
        let done = match answer {
            Ok(done) => done,
            Err(stop) => {
                receive(&mut self.devices, &mut self.receiver);
                return Err(stop);
            }
        };
        let emitted = receive(&mut self.devices, &mut self.receiver);
        Ok(Stepped {
            cycles: done.cycles,
            wrote: done.wrote,
            took: self.devices.taken() - before,
            accepted: emitted.accepted,
            heard: self.devices.events().heard(),
            sent: emitted.sent,
        })
    }

    /// Accepts the event that waits in the port EVENT, up to the boundary behind that: PC and then SR are stored below SP, which
    /// goes down by two words, SR is cleared, and PC is the word of the vector with bit 0 cleared. Stops with a `Bus` fault of
    /// the first store that isn't one to memory: then all is as before.
    fn accept(&mut self) -> Result<Stepped, Stop>
        ensures answer { result ≡ (acceptance self.old).answer }
        ensures board { self.new ≡ board_behind result (acceptance self.old).board }
        ensures stopped { OnErr result (self.new ≡ self.old) }
        ensures took { IfOk result (λ done. done.took ≡ 0) }
        ensures receiver { self.new.receiver ≡ self.old.receiver }
    {
        let pc = self.cpu.reg(Reg::Pc);
        let status = self.cpu.reg(Reg::Sr);
        let (to, below) = self.cpu.return_places();
        if let Err(address) = self.devices.store_two((to, pc), (below, status)) {
            return Err(Stop::Bus { pc, address });
        }
        self.cpu.accept(self.devices.event_vector());
        // Tells the proof that the register file is whole.
        let _pc = self.cpu.reg(Reg::Pc);
        let heard = self.devices.events().heard();
        self.devices.step();
        Ok(Stepped {
            cycles: ACCEPTANCE_CYCLES,
            wrote: None,
            took: 0,
            accepted: None,
            heard,
            sent: None,
        })
    }

    /// Makes a step as the next one, up to the boundary behind it. Stops with a `Bus` fault or `NoReading` at its first access
    /// that isn't served: then all is as before, but for the readings and the event that it had taken, which stay taken.
    pub fn perform(&mut self, step: &NextStep) -> Result<Stepped, Stop>
        requires accepted { self.old.receiver.accepted < 2 ^ 64 - 1 }
        requires repeats { self.old.receiver.repeats < 2 ^ 64 - 1 }
        ensures answer { result ≡ (performed self.old step.now).answer }
        ensures board { self.new ≡ board_behind result (performed self.old step.now).board }
        ensures took { IfOk result (λ done. done.took ≤ 2) }
        ensures counts { OffersOneAtMost self.old.receiver self.new.receiver }
        ensures stopped { OnErr result (KeepsAllButTaken self.old self.new) }
    {
        match step {
            NextStep::Instruction(instruction) => self.execute(instruction),
            NextStep::Acceptance => self.accept(),
        }
    }

    /// One step: an acceptance where one is due, else the instruction at PC, up to the boundary behind it. Stops with the
    /// causes of `next_step` and of `perform`: then all is as before, but for the readings and the event that the instruction
    /// had taken, which stay taken.
    pub fn step(&mut self) -> Result<Stepped, Stop>
        requires accepted { self.old.receiver.accepted < 2 ^ 64 - 1 }
        requires repeats { self.old.receiver.repeats < 2 ^ 64 - 1 }
        ensures step { IsStepOf self.old result self.new }
        ensures took { IfOk result (λ done. done.took ≤ 2) }
        ensures counts { OffersOneAtMost self.old.receiver self.new.receiver }
        ensures stopped { OnErr result (KeepsAllButTaken self.old self.new) }
    {
        match self.next_step() {
            Ok(step) => self.perform(&step),
            Err(stop) => Err(stop),
        }
    }

    /// How many events arose; of a board that listens, how many packets were brought.
    pub fn arisen(&self) -> u64
        ensures { result ≡ self.now.line.arisen }
    {
        self.devices.events().arisen()
    }

    /// How many of them were lost at the port: it was full, or a power-up emptied it.
    pub fn missed(&self) -> u64
        ensures value { result ≡ self.now.line.missed }
        ensures few { result < 2 ^ 62 }
    {
        self.devices.events().missed()
    }

    /// What was read of the port EVENT since the last boundary: of a board that stopped, what the step had read that stopped it.
    pub fn heard(&self) -> Heard
        ensures { result ≡ self.now.line.heard }
    {
        self.devices.events().heard()
    }

    /// The word at an even address of the FRAM; nothing at another address.
    #[inline(always)]
    pub fn word(&self, address: u16) -> Option<u16>
        ensures { result ≡ word_at self.now.fram address }
    {
        self.devices.fram_word(address)
    }

    /// All words of the FRAM, the first at 0x4400.
    pub fn fram(&self) -> &[u16]
        ensures value { result.now ≡ self.now.fram }
        ensures len { length result.now ≡ fram_words }
    {
        self.devices.fram()
    }

    /// How many words the receiver accepted.
    pub fn accepted(&self) -> u64
        ensures { result ≡ self.now.receiver.accepted }
    {
        self.receiver.accepted
    }

    /// Puts what is saved of the board into a state, whose map stays. Takes no memory.
    pub fn save_into(&self, state: &mut State)
        ensures { state.new ≡ saved self.now state.old.image.map }
    {
        state.image.set_words(self.devices.fram());
        state.receiver = self.receiver.next_number();
    }

    /// How many repeats it counted.
    pub fn repeats(&self) -> u64
        ensures { result ≡ self.now.receiver.repeats }
    {
        self.receiver.repeats
    }

    /// How many readings were taken.
    pub fn taken(&self) -> u32
        ensures taken { result ≡ self.now.taken }
        ensures valid { IsBoard self.now }
    {
        self.devices.taken()
    }

    /// The registers.
    pub fn cpu(&self) -> &Cpu
        ensures { result.now ≡ self.now.cpu }
    {
        &self.cpu
    }
}
