//! The sixteen registers, and those of them that an addressing mode can name.

ghost use Rattle.std.specs.Prelude.{◌≡◌, ℕ, ◌<◌, ◌≢◌};
ghost use Rattle.msp_isa.specs.Encoding.{index_number, source_number, indirect_number, register_number};

/// A register that indexed and increment mode can name: R1 (SP) and R4 to R15.
#[derive(Clone, Copy, PartialEq, Eq, Debug)]
pub enum IndexRegister {
    Sp,
    R4,
    R5,
    R6,
    R7,
    R8,
    R9,
    R10,
    R11,
    R12,
    R13,
    R14,
    R15,
}

/// A register that can be a source operand: all but R3, which gives constants there.
#[derive(Clone, Copy, PartialEq, Eq, Debug)]
pub enum SourceRegister {
    Pc,
    Sr,
    Index(IndexRegister),
}

/// A register that indirect mode can name: all but R2 and R3, which give constants there.
#[derive(Clone, Copy, PartialEq, Eq, Debug)]
pub enum IndirectRegister {
    Pc,
    Index(IndexRegister),
}

/// Any of the sixteen registers. R3 keeps nothing and reads as 0.
#[derive(Clone, Copy, PartialEq, Eq, Debug)]
pub enum Reg {
    Pc,
    Sr,
    R3,
    Index(IndexRegister),
}

/// The registers that can be an index, by number; 0, 2 and 3 number none.
static INDEX_REGISTERS: [IndexRegister; 16] = [
    IndexRegister::Sp,
    IndexRegister::Sp,
    IndexRegister::Sp,
    IndexRegister::Sp,
    IndexRegister::R4,
    IndexRegister::R5,
    IndexRegister::R6,
    IndexRegister::R7,
    IndexRegister::R8,
    IndexRegister::R9,
    IndexRegister::R10,
    IndexRegister::R11,
    IndexRegister::R12,
    IndexRegister::R13,
    IndexRegister::R14,
    IndexRegister::R15,
];

/// All registers, by number.
static REGISTERS: [Reg; 16] = [
    Reg::Pc,
    Reg::Index(IndexRegister::Sp),
    Reg::Sr,
    Reg::R3,
    Reg::Index(IndexRegister::R4),
    Reg::Index(IndexRegister::R5),
    Reg::Index(IndexRegister::R6),
    Reg::Index(IndexRegister::R7),
    Reg::Index(IndexRegister::R8),
    Reg::Index(IndexRegister::R9),
    Reg::Index(IndexRegister::R10),
    Reg::Index(IndexRegister::R11),
    Reg::Index(IndexRegister::R12),
    Reg::Index(IndexRegister::R13),
    Reg::Index(IndexRegister::R14),
    Reg::Index(IndexRegister::R15),
];

impl IndexRegister {
    /// The register's number: 1, or 4 to 15.
    #[inline(always)]
    pub fn number(self) -> u16
        ensures value { result ≡ index_number self }
        ensures below { result < 16 }
    {
        // SP comes first, then the others from R4 on.
        let place = self as u8;
        if place == 0 { 1 } else { u16::from(place) + 3 }
    }

    /// The register of this number.
    #[inline(always)]
    pub fn from_number(n: u16) -> IndexRegister
        requires below { n < 16 }
        requires not_pc { n ≢ 0 }
        requires not_sr { n ≢ 2 }
        requires not_r3 { n ≢ 3 }
        ensures found { index_number result ≡ n }
        ensures only { (r : IndexRegister) → index_number r ≡ n → result ≡ r }
    {
        INDEX_REGISTERS[usize::from(n)]
    }
}

impl SourceRegister {
    /// The register's number, 0 to 15 and not 3.
    #[inline(always)]
    pub fn number(self) -> u16
        ensures value { result ≡ source_number self }
        ensures below { result < 16 }
    {
        match self {
            SourceRegister::Pc => 0,
            SourceRegister::Sr => 2,
            SourceRegister::Index(r) => r.number(),
        }
    }
}

impl IndirectRegister {
    /// The register's number: 0, 1, or 4 to 15.
    #[inline(always)]
    pub fn number(self) -> u16
        ensures value { result ≡ indirect_number self }
        ensures below { result < 16 }
    {
        match self {
            IndirectRegister::Pc => 0,
            IndirectRegister::Index(r) => r.number(),
        }
    }
}

impl Reg {
    /// The register's number, 0 to 15.
    #[inline(always)]
    pub fn number(self) -> u16
        ensures value { result ≡ register_number self }
        ensures below { result < 16 }
    {
        let own = match self {
            Reg::Sr => 2,
            Reg::R3 => 3,
            _ => 0,
        };
        match self {
            Reg::Index(r) => r.number(),
            _ => own,
        }
    }

    /// The register of this number.
    #[inline(always)]
    pub fn from_number(n: u16) -> Reg
        requires { n < 16 }
        ensures found { register_number result ≡ n }
        ensures only { (r : Reg) → register_number r ≡ n → result ≡ r }
    {
        REGISTERS[usize::from(n)]
    }
}
