//! Lines and numbers, cut, read and printed.
use alp_text::{NumberFault, Span, next_line, number, print_hex4, print_u64};

#[test]
fn cuts_reads_and_prints(rt: HostRuntime) {
    let text = b"v 42\n\n0x1F";
    assert_eq!(rt; next_line(text, 0), Some(Span { from: 0, to: 4 }));
    assert_eq!(rt; next_line(text, 5), Some(Span { from: 5, to: 5 }));
    assert_eq!(rt; next_line(text, 6), Some(Span { from: 6, to: 10 }));
    assert_eq!(rt; next_line(b"a\n", 2), None);
    assert_eq!(rt; number(b"0042"), Ok(42));
    assert_eq!(rt; number(b"0x1F"), Ok(31));
    assert_eq!(rt; number(b"0x"), Err(NumberFault::BadDigit));
    assert_eq!(rt; number(b"18446744073709551616"), Err(NumberFault::TooBig));
    assert_eq!(rt;
        print_u64(18446744073709551615).as_str(),
        "18446744073709551615"
    );
    assert_eq!(rt; print_hex4(0xff80).as_str(), "ff80");
}
