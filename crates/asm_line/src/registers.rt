//! The names of the registers.
ghost use Rattle.std.specs.Prelude.{◌≡◌};
ghost use Rattle.asm_line.specs.Values.{register_named};

use crate::tables::look_up;
use msp_isa::IndexRegister::{R4, R5, R6, R7, R8, R9, R10, R11, R12, R13, R14, R15, Sp};
use msp_isa::Reg;
use msp_isa::Reg::{Index, Pc, R3, Sr};

/// The registers, by each of their names.
static REGISTERS: [(&[u8], Reg); 19] = [
    (b"pc", Pc),
    (b"sp", Index(Sp)),
    (b"sr", Sr),
    (b"r0", Pc),
    (b"r1", Index(Sp)),
    (b"r2", Sr),
    (b"r3", R3),
    (b"r4", Index(R4)),
    (b"r5", Index(R5)),
    (b"r6", Index(R6)),
    (b"r7", Index(R7)),
    (b"r8", Index(R8)),
    (b"r9", Index(R9)),
    (b"r10", Index(R10)),
    (b"r11", Index(R11)),
    (b"r12", Index(R12)),
    (b"r13", Index(R13)),
    (b"r14", Index(R14)),
    (b"r15", Index(R15)),
];

/// The register of this name, in either case.
pub fn register_named(name: &[u8]) -> Option<Reg>
    ensures { result ≡ register_named name.now }
{
    look_up(REGISTERS.as_slice(), name)
}
