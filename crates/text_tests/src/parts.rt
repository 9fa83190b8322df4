//! Each call once.
use text_parts::{
    cut_group, cut_line, hex_digit, is_blank_line, next_field, uncommented, upper_hex,
};

#[test]
fn cuts(rt: HostRuntime) {
    assert_eq!(rt;
        cut_line(b"ab\r\ncd"),
        Some((b"ab".as_slice(), b"cd".as_slice()))
    );
    assert_eq!(rt;
        cut_line(b"c\rd\r"),
        Some((b"c\rd".as_slice(), b"".as_slice()))
    );
    assert_eq!(rt; cut_line(b""), None);
    assert_eq!(rt;
        next_field(b" \tab  cd"),
        Some((b"ab".as_slice(), b"  cd".as_slice()))
    );
    assert_eq!(rt; next_field(b" \t"), None);
    assert!(rt; is_blank_line(b"\t ") && !is_blank_line(b" x"));
    assert_eq!(rt; uncommented(b'#', b"ab # c # d"), b"ab ".as_slice());
    assert_eq!(rt;
        cut_group(2, b"abc".as_slice()),
        Some((b"ab".as_slice(), b"c".as_slice()))
    );
}

#[test]
fn digits(rt: HostRuntime) {
    assert_eq!(rt; upper_hex(0x0f), *b"0F");
    assert_eq!(rt; upper_hex(0xa9), *b"A9");
    assert_eq!(rt; hex_digit(b'a'), Some(10));
    assert_eq!(rt; hex_digit(b'F'), Some(15));
    assert_eq!(rt; hex_digit(b'G'), None);
}
