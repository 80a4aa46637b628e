use sq_page::{decode_page, encode_page, is_page};
use std::alloc::{AllocError, Global};

// Whether bytes are a page, and what is read of them is written as these bytes again.
fn comes_back(alloc: Global, page: &Vec<u8>) -> Result<bool, AllocError> {
    match decode_page(alloc, page)? {
        None => Ok(false),
        Some(items) => {
            let again = encode_page(alloc, &items)?;
            Ok(again.as_slice() == page.as_slice())
        }
    }
}

// Of a page of so many items, the first of time 5, by its flags and what comes behind the time: whether it is a page, and whether it
// comes back.
fn told_of(alloc: Global, many: u8, flags: u8, more: &[u8]) -> Result<(bool, bool), AllocError> {
    let mut page = Vec::from_slice(alloc, &[0, many, flags, 0, 0, 0, 0, 0, 0, 0, 5])?;
    page.extend_from_slice(more)?;
    page.resize(8192, 0)?;
    let back = comes_back(alloc, &page)?;
    Ok((is_page(&page), back))
}

/// How many items, the flags of the first and what comes behind its time, and whether that is a page.
const PAGES: [(u8, u8, &[u8], bool); 21] = [
    (1, 1, b"\x00\x00\x7f\xff\xff\xff\xff\xff", true),
    (1, 2, b"", true),
    (1, 4, b"\x01\x00", true),
    (1, 5, b"\x00\x00\x00\x00\x00\x00\x00\x09\x01\x00", true),
    (
        1,
        6,
        b"\x04\x01\xff\xff\xff\xff\xff\xff\xff\xfe\x02\x00\x02\x01\x03\x02\xc3\xa9",
        true,
    ),
    (1, 4, b"\x10", true),
    (
        2,
        5,
        b"\x00\x00\x00\x00\x00\x00\x00\x09\x01\x01\x00\x00\x00\x00\x00\x00\x00\x01\x02\x00\x00\x00\x00\x00\x00\x00\x07",
        true,
    ),
    (2, 2, b"", false),
    (1, 0, b"", false),
    (1, 3, b"\x00\x00\x00\x00\x00\x00\x00\x09", false),
    (1, 7, b"\x00\x00\x00\x00\x00\x00\x00\x09\x01\x00", false),
    (1, 8, b"\x01\x00", false),
    (1, 1, b"\x00\x00\x80\x00\x00\x00\x00\x00", false),
    (1, 4, b"\x00", false),
    (1, 4, b"\x11", false),
    (1, 4, b"\x01\x02\x02", false),
    (1, 4, b"\x01\x03\x00", false),
    (1, 4, b"\x01\x03\x01\xff", false),
    (1, 4, b"\x01\x04", false),
    (1, 4, b"\x01\x00\x01", false),
    (1, 2, b"\x01", false),
];

#[test]
fn pages_have_items_of_each_form_and_no_others(rt: HostRuntime) {
    for (many, flags, more, is) in &PAGES {
        assert!(rt; told_of(rt.alloc(), *many, *flags, more) == Ok((*is, *is)));
    }
}
