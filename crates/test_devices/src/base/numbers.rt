use bb_base::{Crc, NumberError, crc32, read_number};

#[test]
fn crc_of_the_check_text(rt: HostRuntime) {
    assert_eq!(rt; crc32(b"123456789"), 0xcbf4_3926);
    assert_eq!(rt; crc32(b""), 0);
}

fn in_pieces(first: &[u8], second: &[u8], third: &[u8]) -> u32 {
    let mut crc = Crc::start();
    crc.feed(first);
    crc.feed(second);
    crc.feed(third);
    crc.value()
}

#[test]
fn crc_in_pieces_is_crc_of_all(rt: HostRuntime) {
    assert_eq!(rt; in_pieces(b"1234", b"", b"56789"), 0xcbf4_3926);
}

fn is_read(text: &str, value: u32) -> bool {
    read_number(text.as_bytes()) == Ok(value)
}

fn is_refused(text: &str, error: NumberError) -> bool {
    read_number(text.as_bytes()) == Err(error)
}

#[test]
fn numbers_are_read(rt: HostRuntime) {
    assert!(rt; is_read("0", 0));
    assert!(rt; is_read("007", 7));
    assert!(rt; is_read("0x12345678", 0x1234_5678));
    assert!(rt; is_read("0Xff", 255));
    assert!(rt; is_read("4294967295", 4_294_967_295));
}

#[test]
fn what_spells_no_number(rt: HostRuntime) {
    for text in [
        "",
        "0x",
        "+1",
        "-1",
        " 1",
        "1 ",
        "12a",
        "0xg",
        "0b1",
        "99999999999z",
    ] {
        let refused = is_refused(text, NumberError::NotNumber);
        assert!(rt; refused, "at {text}");
    }
}

#[test]
fn numbers_that_are_too_large(rt: HostRuntime) {
    for text in ["4294967296", "0x100000000", "99999999999999999999999999"] {
        let refused = is_refused(text, NumberError::TooLarge);
        assert!(rt; refused, "at {text}");
    }
}
