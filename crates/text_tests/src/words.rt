//! Each operation on words, with its flags.
use alp_words::{
    Flags, Width, add, and, dadd, div16, from_bytes, less_signed, mul16, rem16, rra, rrc, sar16,
    shl16, shr16, sub, swpb, sxt, to_bytes, xor,
};

// The flags whose letters stand in a text.
fn flags(letters: &[u8]) -> Flags {
    Flags {
        n: letters.contains(&b'n'),
        z: letters.contains(&b'z'),
        c: letters.contains(&b'c'),
        v: letters.contains(&b'v'),
    }
}

#[test]
fn results_have_their_flags(rt: HostRuntime) {
    let clear = flags(b"");
    for (found, word, letters) in [
        (sub(Width::Word, 0x8000, 1, true), 0x7fff, b"cv".as_slice()),
        (add(Width::Byte, 0x12ff, 1, false), 0, b"zc".as_slice()),
        (
            dadd(Width::Word, 0x0999, 0x0001, clear),
            0x1000,
            b"".as_slice(),
        ),
        (
            dadd(Width::Word, 0xffff, 0xffff, clear),
            0x5554,
            b"c".as_slice(),
        ),
        (xor(Width::Word, 0x8001, 0x8000), 1, b"cv".as_slice()),
        (and(Width::Byte, 0x12f0, 0x340f), 0, b"z".as_slice()),
        (rra(Width::Byte, 0x1281), 0xc0, b"nc".as_slice()),
        (rrc(Width::Word, 0x0002, true), 0x8001, b"n".as_slice()),
        (sxt(0x1280), 0xff80, b"nc".as_slice()),
    ] {
        assert_eq!(rt; found, (word, flags(letters)));
    }
}

#[test]
fn numbers_wrap_and_divide_by_zero(rt: HostRuntime) {
    for (found, word) in [
        (mul16(0x1234, 0x0100), 0x3400),
        (div16(7, 0), 65535),
        (rem16(7, 0), 7),
        (div16(65533, 2), 32766),
        (rem16(65533, 2), 1),
        (shl16(0x8001, 1), 2),
        (shr16(0x8001, 1), 0x4000),
        (sar16(65533, 1), 65534),
        (swpb(0x1234), 0x3412),
        (from_bytes([0x34, 0x12]), 0x1234),
    ] {
        assert_eq!(rt; found, word);
    }
    assert!(rt; less_signed(65533, 2));
    assert_eq!(rt; to_bytes(0x1234), [0x34, 0x12]);
}
