use r9_text::{
    Bytes, Numbers, next_word, push_decimal, push_hex, push_number, push_word, read_decimal,
    read_digits, read_field, read_hex,
};
use std::test::Fail;

#[test]
fn lists_grow_at_the_end(rt: HostRuntime) -> Result<(), Fail> {
    let mut bytes = Bytes::from_slice(rt.alloc(), b"r")?;
    bytes.push(b'i')?;
    bytes.push_all(b"o9")?;
    let copy = bytes.try_clone(rt.alloc())?;
    assert_eq!(rt; copy.as_slice(), b"rio9".as_slice());
    let mut numbers = Numbers::from_slice(rt.alloc(), &[7])?;
    numbers.push(8)?;
    numbers.push_all(&[9, 10])?;
    let copy = numbers.try_clone(rt.alloc())?;
    assert_eq!(rt; copy.as_slice(), [7, 8, 9, 10].as_slice());
    Ok(())
}

#[test]
fn numbers_are_written(rt: HostRuntime) -> Result<(), Fail> {
    let mut out = Bytes::new(rt.alloc());
    push_hex(&mut out, &[0x13, 0, 0xff])?;
    push_word(&mut out, b"x8r8g8b8")?;
    push_number(&mut out, -20)?;
    push_decimal(&mut out, 7)?;
    let wanted = b"1300ff   x8r8g8b8         -20 7";
    assert_eq!(rt; out.as_slice(), wanted.as_slice());
    Ok(())
}

#[test]
fn numbers_and_words_are_read(rt: HostRuntime) -> Result<(), Fail> {
    let bytes = read_hex(rt.alloc(), b"1300ff")?.ok_or("these are digits")?;
    assert_eq!(rt; bytes.as_slice(), [0x13, 0, 0xff].as_slice());
    assert!(rt; read_hex(rt.alloc(), b"1F")?.is_none());
    assert_eq!(rt; read_field(b"m        -20 ", 1), Some(-20));
    assert_eq!(rt; read_field(b"         - 1 ", 1), None);
    assert_eq!(rt; next_word(b" \tset -pid", 1), Some((2, 5)));
    assert_eq!(rt; read_digits(b"007", 7), Some(7));
    assert_eq!(rt; read_decimal(b"4294967295"), Some(4_294_967_295));
    assert_eq!(rt; read_decimal(b"07"), None);
    Ok(())
}
