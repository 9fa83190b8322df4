//! Memory and ports.

ghost use Rattle.std.specs.Prelude.{◌≡◌, ◌==◌, ◌%◌, if◌then◌else◌, ◌∷◌, ℕ, ◌<◌, ◌≤◌, ◌+◌, ◌-◌, length, slice_index, ◌⊎◌};
ghost use Rattle.std.specs.Prelude.{IsTrue, OnOk, OnErr, IfOk, IfErr, IfSome, IfNone, Some, None, false};
ghost use Rattle.std.proofs.Common.{refl};
ghost use Rattle.alp_words.specs.declared.Width.TheVariants.{Word, Byte};
ghost use Rattle.state_text.specs.address_space.Limits.{fram_words, event_vector};
ghost use Rattle.state_text.specs.image_text.ImageValue.{word_at, place_of};
ghost use Rattle.fram_board.specs.Bus.{IsBusState, is_ram, is_memory, is_word, memory_word, with_word, byte_of, with_byte, next_reading};
ghost use Rattle.fram_board.specs.Bus.{data_written, answer_written, port_written};
ghost use Rattle.fram_board.specs.Bus.{board_bus, answer_port};
ghost use Rattle.fram_board.specs.Board.{filled_words, vector_of, word_brought};
ghost use Rattle.fram_board.specs.Radio.{radio_powered, acknowledged, packet_heard};
ghost use Rattle.fram_board.specs.Output.{offered_word, sent_words};
ghost use Rattle.fram_board.specs.Events.{is_full, line_of_events, line_behind_step, line_behind_power_up};

use crate::events::Events;
use crate::radio::Radio;
use alp_words::{Width, from_bytes, to_bytes};
use msp_step::{Bus, Refused};
use state_text::address_space::{
    ACKOUT, EVENT, EVENT_VECTOR, FRAM_FIRST, OUTDATA, OUTNUM, RAM_END, RAM_FIRST, RESET_VECTOR,
    SENSOR, fram_index,
};
use std::alloc::{AllocError, Global};
use std::marker::Model;

/// What an instruction puts out at a port.
#[derive(Clone, Copy)]
pub enum Output {
    /// Nothing.
    Nothing,
    /// A word is offered to the receiver.
    Offered(u16),
    /// A number and a word are sent, or an acknowledgement and 0.
    Sent(u16, u16),
}

/// RAM, FRAM, the sensor's readings, the events, the ports and the radio.
#[derive(Drop)]
pub struct Devices {
    fram: Vec<u16>,
    ram: Vec<u16>,
    outnum: u16,
    readings: Vec<u16>,
    taken: usize,
    output: Output,
    events: Events,
    radio: Radio,
}

impl Model for Devices {
    ghost use Rattle.fram_board.specs.Bus.{BusState, IsBusState};
    ghost use Rattle.fram_board.specs.Output.{offered_word, sent_words};

    ghost Value = { BusState };

    ghost view = { λ d. record {
      fram = d.fram.items;
      ram = d.ram.items;
      outnum = d.outnum;
      readings = d.readings.items;
      taken = d.taken;
      offered = offered_word d.output;
      sent = sent_words d.output;
      line = d.events;
      radio = d.radio;
    } };

    ghost invariant = { λ d. IsBusState (record {
      fram = d.fram.items;
      ram = d.ram.items;
      outnum = d.outnum;
      readings = d.readings.items;
      taken = d.taken;
      offered = offered_word d.output;
      sent = sent_words d.output;
      line = d.events;
      radio = d.radio;
    }) };
}

fn is_ram(address: u16) -> bool
    ensures { result ≡ is_ram address }
{
    (RAM_FIRST..RAM_END).contains(&address)
}

fn is_memory(address: u16) -> bool
    ensures { result ≡ is_memory address }
{
    FRAM_FIRST <= address || is_ram(address)
}

fn is_even(address: u16) -> bool
    ensures { result ≡ ((address % 2) == 0) }
{
    address % 2 == 0
}

/// The byte of a word that stands at an address.
fn byte_of(word: u16, address: u16) -> u16
    ensures value { result ≡ byte_of word address }
    ensures small { result < 0x100 }
{
    u16::from(to_bytes(word)[usize::from(address % 2)])
}

/// The word with this low byte at an address.
fn with_byte(word: u16, address: u16, value: u16) -> u16
    ensures { result ≡ with_byte word address value }
{
    let mut bytes = to_bytes(word);
    bytes[usize::from(address % 2)] = to_bytes(value)[0];
    from_bytes(bytes)
}

/// So many zeros.
#[tactic(auto, unfolding(crate::specs::Board::filled_words))]
fn zeros(alloc: Global, count: usize) -> Result<Vec<u16>, AllocError>
    ensures value { IfOk result (λ v. v.items ≡ filled_words count 0) }
    ensures len { IfOk result (λ v. length v.items ≡ count) }
{
    vec![in alloc; 0; count]
}

/// Each word becomes this one.
#[tactic(auto, unfolding(crate::specs::Board::filled_words))]
fn fill_words(words: &mut Vec<u16>, word: u16)
    ensures value { words.new.items ≡ filled_words (length words.old.items) word }
    ensures len { length words.new.items ≡ length words.old.items }
{
    words.fill(word);
}

impl Devices {
    /// This FRAM and these readings and events, none of them taken, and this radio; RAM and OUTNUM are 0.
    pub fn new(
        alloc: Global,
        fram: &[u16],
        readings: &[u16],
        events: &[(u32, u16)],
        radio: Radio,
    ) -> Result<Devices, AllocError>
        requires fram { length fram.now ≡ fram_words }
        requires readings { length readings.now ≤ 262144 }
        requires events { length events.now ≤ 65536 }
        ensures { IfOk result (λ d. d ≡ record {
          fram = fram.now;
          ram = filled_words 1024 0;
          outnum = 0;
          readings = readings.now;
          taken = 0;
          offered = None;
          sent = None;
          line = line_of_events events.now;
          radio = radio;
        }) }
    {
        Ok(Devices {
            fram: fram.to_vec(alloc)?,
            ram: zeros(alloc, 1024)?,
            outnum: 0,
            readings: readings.to_vec(alloc)?,
            taken: 0,
            output: Output::Nothing,
            events: Events::new(alloc, events)?,
            radio,
        })
    }

    /// RAM and OUTNUM hold the fill word, the port EVENT is emptied, the events that are due arise, and no acknowledgement was
    /// brought since.
    pub fn power_up(&mut self, fill: u16)
        ensures { self.new ≡ record self.old {
          ram = filled_words 1024 fill;
          outnum = fill;
          line = line_behind_power_up self.old.line;
          radio = radio_powered self.old.radio;
        } }
    {
        fill_words(&mut self.ram, fill);
        self.outnum = fill;
        self.events.power_up();
        self.radio = self.radio.powered();
    }

    /// A packet is brought to the port EVENT: it waits there, or is lost where that is full. Where the board doesn't listen
    /// nothing changes.
    pub fn bring_packet(&mut self, number: u16, word: u16)
        ensures { self.new ≡ record self.old {
          line = word_brought self.old.radio word self.old.line;
          radio = packet_heard number (is_full self.old.line.port) self.old.radio;
        } }
    {
        match self.radio {
            Radio::Listens(_) => {
                self.radio = self.radio.with_packet(number, self.events.is_full());
                self.events.bring(word);
            }
            Radio::Alone => {}
            Radio::Sends(_) => {}
        }
    }

    /// An acknowledgement is brought: the greatest one counts. Where the board doesn't send nothing changes.
    pub fn bring_acknowledgement(&mut self, number: u16)
        ensures { self.new ≡ record self.old { radio = acknowledged number self.old.radio } }
    {
        self.radio = self.radio.acknowledged(number);
    }

    /// Behind a step: it is counted, and the events that are due arise.
    #[inline(always)]
    pub fn step(&mut self)
        ensures { self.new ≡ record self.old { line = line_behind_step self.old.line } }
    {
        self.events.step();
    }

    /// The port EVENT and the events.
    #[inline(always)]
    pub fn events(&self) -> &Events
        ensures { result.now ≡ self.now.line }
    {
        &self.events
    }

    /// Stores two words of memory, one behind the other. Where an address is no whole word of memory nothing is stored, and the
    /// first such one is answered.
    pub fn store_two(&mut self, first: (u16, u16), second: (u16, u16)) -> Result<(), u16>
        ensures stored { OnOk result (self.new ≡ with_word (with_word self.old first.0 first.1) second.0 second.1) }
        ensures ok { OnOk result (IsTrue (is_word first.0) × IsTrue (is_word second.0)) }
        ensures refused { IfErr result (λ a. (self.new ≡ self.old) × (is_word a ≡ false)
            × ((a ≡ first.0) ⊎ ((a ≡ second.0) × IsTrue (is_word first.0)))) }
    {
        let (to, word) = first;
        let (next_to, next_word) = second;
        if self.whole_word(to).is_none() {
            return Err(to);
        }
        if self.whole_word(next_to).is_none() {
            return Err(next_to);
        }
        self.set_word(to, word);
        self.set_word(next_to, next_word);
        Ok(())
    }

    /// The word at which the CPU goes on where it accepts an event.
    pub fn event_vector(&self) -> u16
        ensures { result ≡ slice_index self.now.fram (place_of event_vector) }
    {
        self.fram[fram_index(EVENT_VECTOR)]
    }

    /// The word to which an address of memory belongs.
    fn word(&self, address: u16) -> u16
        requires { IsTrue (is_memory address) }
        ensures { result ≡ memory_word self.now address }
    {
        if FRAM_FIRST <= address {
            self.fram[fram_index(address)]
        } else {
            self.ram[usize::from((address - RAM_FIRST) / 2)]
        }
    }

    /// The word at an even address of memory; nothing at another address. The FRAM, where the code is, comes first.
    #[inline(always)]
    fn whole_word(&self, address: u16) -> Option<u16>
        ensures found { IfSome result (λ word. IsTrue (is_word address) × (word ≡ memory_word self.now address)) }
        ensures none { IfNone result (is_word address ≡ false) }
    {
        if !is_even(address) {
            None
        } else if FRAM_FIRST <= address {
            Some(self.fram[fram_index(address)])
        } else if is_ram(address) {
            Some(self.ram[usize::from((address - RAM_FIRST) / 2)])
        } else {
            None
        }
    }

    /// Sets the word at an even address of memory, and answers whether there is one.
    #[inline(always)]
    fn set_whole_word(&mut self, address: u16, word: u16) -> bool
        ensures set { result ≡ is_word address }
        ensures state { self.new ≡ if is_word address then with_word self.old address word else self.old }
    {
        if !is_even(address) {
            false
        } else if FRAM_FIRST <= address {
            self.fram[fram_index(address)] = word;
            true
        } else if is_ram(address) {
            self.ram[usize::from((address - RAM_FIRST) / 2)] = word;
            true
        } else {
            false
        }
    }

    /// Sets that word.
    fn set_word(&mut self, address: u16, word: u16)
        requires { IsTrue (is_memory address) }
        ensures { self.new ≡ with_word self.old address word }
    {
        if FRAM_FIRST <= address {
            self.fram[fram_index(address)] = word;
        } else {
            self.ram[usize::from((address - RAM_FIRST) / 2)] = word;
        }
    }

    /// The word at an even address of the FRAM; nothing at another address.
    #[inline(always)]
    pub fn fram_word(&self, address: u16) -> Option<u16>
        ensures { result ≡ word_at self.now.fram address }
    {
        if FRAM_FIRST <= address && is_even(address) {
            Some(self.fram[fram_index(address)])
        } else {
            None
        }
    }

    /// All words of the FRAM, the first at 0x4400.
    pub fn fram(&self) -> &[u16]
        ensures value { result.now ≡ self.now.fram }
        ensures len { length result.now ≡ fram_words }
    {
        self.fram.as_slice()
    }

    /// The reset vector.
    pub fn vector(&self) -> u16
        ensures { result ≡ vector_of self.now.fram }
    {
        self.fram[fram_index(RESET_VECTOR)]
    }

    /// How many readings were taken.
    pub fn taken(&self) -> u32
        ensures taken { result ≡ self.now.taken }
        ensures valid { IsBusState self.now }
    {
        self.taken as u32
    }

    /// The word last written to OUTNUM.
    pub fn number(&self) -> u16
        ensures { result ≡ self.now.outnum }
    {
        self.outnum
    }

    /// What an instruction put out, which is then forgotten.
    #[inline(always)]
    pub fn take_output(&mut self) -> Output
        ensures offered { offered_word result ≡ self.old.offered }
        ensures sent { sent_words result ≡ self.old.sent }
        ensures cleared { self.new ≡ record self.old { offered = None; sent = None } }
    {
        match self.output {
            Output::Nothing => Output::Nothing,
            output => {
                self.output = Output::Nothing;
                output
            }
        }
    }

    fn take_reading(&mut self) -> Result<u16, Refused>
        ensures value { result ≡ next_reading self.old }
        ensures ok { OnOk result (self.new ≡ record self.old { taken = self.old.taken + 1 }) }
        ensures err { OnErr result (self.new ≡ self.old) }
    {
        if self.taken < self.readings.len() {
            let word = self.readings[self.taken];
            self.taken += 1;
            Ok(word)
        } else {
            Err(Refused::NoReading)
        }
    }

    // A word written to OUTDATA.
    fn write_data(&mut self, word: u16)
        ensures { self.new ≡ data_written self.old.radio self.old word }
    {
        self.output = match self.radio {
            Radio::Alone => Output::Offered(word),
            Radio::Sends(_) => Output::Sent(self.outnum, word),
            Radio::Listens(_) => Output::Offered(word),
        };
    }

    // A word written to ACKOUT.
    fn write_answer(&mut self, word: u16) -> Result<(), Refused>
        ensures ok { OnOk result (answer_written self.old.radio self.old answer_port word ≡ Some self.new) }
        ensures err { IfErr result (λ e.
            (e ≡ Refused.Bus) × (answer_written self.old.radio self.old answer_port word ≡ None) × (self.new ≡ self.old)) }
    {
        match self.radio {
            Radio::Listens(_) => {
                self.output = Output::Sent(word, 0);
                Ok(())
            }
            Radio::Alone => Err(Refused::Bus),
            Radio::Sends(_) => Err(Refused::Bus),
        }
    }

    fn write_port(&mut self, address: u16, word: u16) -> Result<(), Refused>
        ensures ok { OnOk result (port_written self.old address word ≡ Some self.new) }
        ensures err { IfErr result (λ e.
            (e ≡ Refused.Bus) × (port_written self.old address word ≡ None) × (self.new ≡ self.old)) }
    {
        match address {
            OUTNUM => {
                self.outnum = word;
                Ok(())
            }
            OUTDATA => {
                self.write_data(word);
                Ok(())
            }
            ACKOUT => self.write_answer(word),
            _ => Err(Refused::Bus),
        }
    }
}

impl Bus for Devices {
    ghost model = { board_bus };

    ghost reads_keep_memory = { λ s a. elim [ Word ↦ refl | Byte ↦ refl ] };

    #[inline(always)]
    fn fetch(&self, address: u16) -> Result<u16, Refused> {
        match self.whole_word(address) {
            Some(word) => Ok(word),
            None => Err(Refused::Bus),
        }
    }

    #[inline(always)]
    fn read(&mut self, address: u16, width: Width) -> Result<u16, Refused> {
        match width {
            Width::Word => {
                match self.whole_word(address) {
                    Some(word) => Ok(word),
                    None if address == SENSOR => self.take_reading(),
                    None if address == EVENT => Ok(self.events.read()),
                    None => self.radio.read(self.events.is_full(), address),
                }
            }
            Width::Byte => {
                if is_memory(address) {
                    Ok(byte_of(self.word(address), address))
                } else {
                    Err(Refused::Bus)
                }
            }
        }
    }

    #[inline(always)]
    fn write(&mut self, address: u16, width: Width, value: u16) -> Result<(), Refused> {
        match width {
            Width::Word => {
                if self.set_whole_word(address, value) {
                    Ok(())
                } else {
                    self.write_port(address, value)
                }
            }
            Width::Byte => {
                if is_memory(address) {
                    let word = with_byte(self.word(address), address, value);
                    self.set_word(address, word);
                    Ok(())
                } else {
                    Err(Refused::Bus)
                }
            }
        }
    }
}
