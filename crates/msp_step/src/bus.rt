//! The bus: memory and ports, as the CPU sees them.

ghost use Rattle.std.specs.Prelude.{◌≡◌, ℕ, ◌<◌, OnOk, OnErr, IfOk, IfErr, Some, None};
ghost use Rattle.alp_words.specs.declared.Width.{Width};
ghost use Rattle.msp_step.specs.Access.{BusModel};
ghost use Rattle.msp_step.specs.Reads.{fetch_answer};

use alp_words::Width;

/// Why a bus doesn't serve an access.
#[derive(Clone, Copy, PartialEq, Eq, Debug)]
pub enum Refused {
    /// Nothing answers at the address, or not in this way: a bus fault.
    Bus,
    /// The access wants a sensor reading and none is left.
    NoReading,
}

/// What the CPU is connected to. Its model tells the answer of each access; the calls refuse exactly
/// what the model refuses.
pub trait Bus {
    /// What it answers.
    ghost model: { BusModel Self };

    /// The word of an instruction at an address. Refuses with `Bus` alone.
    fn fetch(&self, address: u16) -> Result<u16, Refused>
        ensures { result ≡ fetch_answer (model.fetches self.now address) };

    /// The word or byte at an address; the read may take a reading. After a refusal the bus is as before.
    fn read(&mut self, address: u16, width: Width) -> Result<u16, Refused>
        ensures value { result ≡ model.reads self.old address width }
        ensures byte { IfOk result (λ v. width ≡ Width.Byte → v < 0x100) }
        ensures after { OnOk result (self.new ≡ model.after_read self.old address width) }
        ensures err { OnErr result (self.new ≡ self.old) };

    /// Writes a word, or the low byte of `value`. Refuses with `Bus` alone, and is then as before.
    fn write(&mut self, address: u16, width: Width, value: u16) -> Result<(), Refused>
        ensures ok { OnOk result (model.writes self.old address width value ≡ Some self.new) }
        ensures err { IfErr result (λ e. (e ≡ Refused.Bus) × (model.writes self.old address width value ≡ None) × (self.new ≡ self.old)) };

    /// A read keeps the memory.
    ghost reads_keep_memory: { (s : Self) (a : ℕ) (w : Width) → model.memory (model.after_read s a w) ≡ model.memory s };
}
