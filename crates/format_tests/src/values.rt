//! Numbers, texts, rows and keys.

use cs_value::{
    Bytes, Image, Key, OwnedField, OwnedValue, Row, Text, field_spellings_law, image_read,
    key_bytes_law, record_spellings_law, varint_len, varint_read, varint_spellings_law,
    varint_write,
};
use std::cmp::Ordering;
use std::process::Abort;

/// Asserts the varint of a number.
fn expect_varint(rt: &(impl Abort + AllocGlobal), number: u32, bytes: &[u8]) {
    assert!(rt; OwnedValue::fits(number as usize));
    assert!(rt; varint_len(number) == bytes.len(), "of {number}");
    assert!(rt;
        varint_read(bytes) == Ok((number, bytes.len())),
        "of {number}"
    );
    let mut out = Vec::new(rt.alloc());
    varint_write(&mut out, number).expect(rt, "memory");
    assert!(rt; out.as_slice() == bytes, "of {number}");
}

#[test]
fn spells_numbers(rt: HostRuntime) {
    for (number, bytes) in [
        (0, b"\x00".as_slice()),
        (127, b"\x7f".as_slice()),
        (128, b"\x81\x00".as_slice()),
        (16_383, b"\xff\x7f".as_slice()),
        (16_384, b"\x81\x80\x00".as_slice()),
        (2_147_483_647, b"\x87\xff\xff\xff\x7f".as_slice()),
    ] {
        expect_varint(&rt, number, bytes);
    }
}

#[test]
fn returns_what_texts_and_blobs_are_made_of(rt: HostRuntime) {
    let text = Text::new(String::from_str(rt.alloc(), "x").expect(&rt, "memory"));
    assert!(rt; text.into_string().as_str() == "x");
    let blob = Bytes::new(Vec::from_slice(rt.alloc(), b"\xff").expect(&rt, "memory"));
    assert!(rt; blob.into_vec().as_slice() == b"\xff".as_slice());
}

#[test]
fn returns_what_rows_and_images_are_made_of(rt: HostRuntime) {
    let row = Row::new(vec![in rt.alloc(); OwnedValue::Int(2)].expect(&rt, "memory"));
    assert!(rt; row.into_values().len() == 1);
    let image = Image::new(vec![in rt.alloc(); OwnedField::Undefined].expect(&rt, "memory"));
    assert!(rt; image.into_fields().len() == 1);
}

/// The key of an image of one column.
fn key_of(rt: &(impl Abort + AllocGlobal), bytes: &[u8]) -> Key {
    let (image, _) = image_read(rt.alloc(), bytes, 1).expect(rt, "an image");
    Key::of_image(rt.alloc(), &[1], &image).expect(rt, "memory")
}

/// The integers 2 and -1.
const TWO: &[u8] = b"\x01\x00\x00\x00\x00\x00\x00\x00\x02";

const MINUS_ONE: &[u8] = b"\x01\xff\xff\xff\xff\xff\xff\xff\xff";

#[test]
fn orders_keys_by_their_bytes(rt: HostRuntime) {
    for (low, high) in [
        (TWO, MINUS_ONE),
        (MINUS_ONE, b"\x03\x01b".as_slice()),
        (b"\x03\x01\x00".as_slice(), b"\x03\x01b".as_slice()),
        (b"\x03\x01b".as_slice(), b"\x03\x02aa".as_slice()),
        (b"\x03\x02aa".as_slice(), b"\x04\x00".as_slice()),
        (b"\x04\x00".as_slice(), b"\x04\x01\x00".as_slice()),
        (b"\x04\x01\x00".as_slice(), b"\x04\x01a".as_slice()),
    ] {
        let order = key_of(&rt, low).cmp(&key_of(&rt, high));
        assert!(rt; order == Ordering::Less);
    }
}

/// They do nothing, and are called for their contracts.
#[test]
fn laws_return() {
    varint_spellings_law();
    field_spellings_law();
    record_spellings_law();
    key_bytes_law();
}
