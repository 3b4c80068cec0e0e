//! The bytes of the parts of a page's drawing.
use crate::facts::assert_holds;
use minus_term::{
    write_closing_start, write_down_start, write_page, write_row, write_row_end, write_row_start,
    write_up_start,
};
use std::alloc::{AllocError, Global};

// A page of three rows, with a prompt and without one.
fn pages(alloc: Global) -> Result<Vec<u8>, AllocError> {
    let mut out = Vec::new(alloc);
    write_page(&mut out, 2, &["a row", ""], "end")?;
    write_page::<&str>(&mut out, 2, &[], "")?;
    Ok(out)
}

#[test]
fn writes_pages(rt: HostRuntime) {
    let page =
        b"\x1b[1;1H\x1b[2J\ra row\n\r\n\x1b[3;1H\r\x1b[2Kend\x1b[1;1H\x1b[2J\x1b[3;1H\r\x1b[2K";
    let is_written = match pages(rt.alloc()) {
        Ok(out) => out.as_slice() == page.as_slice(),
        Err(_) => false,
    };
    assert_holds(&rt, is_written);
}

// What moves and closings begin with, and rows.
fn parts(alloc: Global) -> Result<Vec<u8>, AllocError> {
    let mut out = Vec::new(alloc);
    write_down_start(&mut out, 24, 3)?;
    write_row(&mut out, "one")?;
    write_up_start(&mut out, 3)?;
    write_row_start(&mut out)?;
    write_row_end(&mut out)?;
    write_down_start(&mut out, 1, 0)?;
    write_closing_start(&mut out, 65535)?;
    Ok(out)
}

#[test]
fn writes_parts(rt: HostRuntime) {
    let bytes =
        b"\x1b[3S\x1b[21;1H\x1b[2K\rone\n\x1b[3T\x1b[1;1H\r\n\x1b[1;1H\x1b[2K\x1b[65536;1H\x1b[2K\x1b[?25l";
    let is_written = match parts(rt.alloc()) {
        Ok(out) => out.as_slice() == bytes.as_slice(),
        Err(_) => false,
    };
    assert_holds(&rt, is_written);
}
