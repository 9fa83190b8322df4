//! Laws of the operations: each function's contract is the law.

ghost use Rattle.alp_words.specs.Laws.{TopBitIsSign, SumWithCarry, OverflowOfSum, DifferenceWithBorrow, OverflowOfDifference, UnsignedOrder, SignedOrder};
ghost use Rattle.alp_words.specs.Laws.{HalfOfSigned, RotationThroughCarry, SignExtension, SwappedTwice, DecimalSum, ByteResults, Division, SumUndone};

/// The top bit of an operand is the sign of its signed value.
#[tactic(auto, using(crate::proofs::Signed::is_sign))]
pub fn top_bit_is_sign()
    ensures { TopBitIsSign }
{}

/// Result and carry of ADD and ADDC are the whole sum.
#[tactic(auto, using(crate::proofs::Carries::is_sum_with_carry))]
pub fn sum_with_carry()
    ensures { SumWithCarry }
{}

/// V of ADD and ADDC is signed overflow.
#[tactic(auto, using(crate::proofs::Signed::is_overflow_of_sum))]
pub fn overflow_of_sum()
    ensures { OverflowOfSum }
{}

/// C of SUB, SUBC and CMP is "no borrow".
#[tactic(auto, using(crate::proofs::Carries::is_difference_with_borrow))]
pub fn difference_with_borrow()
    ensures { DifferenceWithBorrow }
{}

/// V of SUB, SUBC and CMP is signed overflow.
#[tactic(auto, using(crate::proofs::Signed::is_overflow_of_difference))]
pub fn overflow_of_difference()
    ensures { OverflowOfDifference }
{}

/// After CMP, C and Z tell the unsigned order, as JC, JNC, JEQ and JNE use it.
#[tactic(auto, using(crate::proofs::Carries::is_unsigned_order))]
pub fn unsigned_order()
    ensures { UnsignedOrder }
{}

/// After CMP, N equals V exactly in signed order, as JGE and JL use it.
#[tactic(auto, using(crate::proofs::Carries::is_signed_order))]
pub fn signed_order()
    ensures { SignedOrder }
{}

/// RRA halves the signed value, rounded down; C is what is left.
#[tactic(auto, using(crate::proofs::Carries::is_half_of_signed))]
pub fn half_of_signed()
    ensures { HalfOfSigned }
{}

/// RRC turns the operand and the carry above it by one bit.
#[tactic(auto, using(crate::proofs::Carries::is_rotation_through_carry))]
pub fn rotation_through_carry()
    ensures { RotationThroughCarry }
{}

/// SXT keeps the signed value of the low byte.
#[tactic(auto, using(crate::proofs::Carries::is_sign_extension))]
pub fn sign_extension()
    ensures { SignExtension }
{}

/// SWPB twice changes nothing.
#[tactic(auto, using(crate::proofs::Carries::is_swapped_twice))]
pub fn swapped_twice()
    ensures { SwappedTwice }
{}

/// DADD is the decimal sum, where the operands are decimal digits.
#[tactic(auto, using(crate::proofs::Decimal::is_decimal_sum))]
pub fn decimal_sum()
    ensures { DecimalSum }
{}

/// Division with remainder, and what stands for it at 0.
#[tactic(auto, using(crate::proofs::Carries::is_division))]
pub fn division()
    ensures { Division }
{}

/// A difference undoes a sum.
#[tactic(auto, using(crate::proofs::Carries::is_sum_undone))]
pub fn sum_undone()
    ensures { SumUndone }
{}

/// What an operation on bytes gives is below 256, so a register that takes it has a high byte of 0.
#[tactic(auto, using(crate::proofs::Carries::is_byte_results))]
pub fn byte_results()
    ensures { ByteResults }
{}
