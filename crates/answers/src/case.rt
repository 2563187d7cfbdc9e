// The records of the case file: payload length, kind, payload.
use crate::form::has_form;
use std::io;
use std::io::{BufRead, ErrorKind};

#[derive(Clone, Copy)]
pub enum Case {
    // The file ends where a record would begin.
    End,
    // The file's end cuts the record, or its payload is too long or does not have its kind's form.
    Stop,
    // The kind, and the payload's length.
    Of(u32, u32),
}

// The bytes before the payload.
pub const HEAD: u64 = 6;

// Fills the buffer; whether the file has so many bytes left.
fn fills(input: &mut impl BufRead, buffer: &mut [u8]) -> io::Result<bool> {
    match input.read_exact(buffer) {
        Ok(()) => Ok(true),
        Err(error) if error.kind() == ErrorKind::UnexpectedEof => Ok(false),
        Err(error) => Err(error),
    }
}

fn read_case_head(input: &mut impl BufRead) -> io::Result<Case> {
    if input.fill_buf()?.is_empty() {
        return Ok(Case::End);
    }
    let mut head = [0u8; 6];
    if !fills(input, &mut head)? {
        return Ok(Case::Stop);
    }
    // The kind is the last two of the four bytes from offset 2 on.
    Ok(Case::Of(octets::le4(&head, 2) / 65536, octets::le4(&head, 0)))
}

// The payload goes to the front of a buffer that is as long as a payload may be.
pub(crate) fn read_case(input: &mut impl BufRead, payload: &mut [u8]) -> io::Result<Case> {
    let r = read_case_head(input)?;
    let Case::Of(kind, length) = r else {
        return Ok(r);
    };
    let size = length as usize;
    if payload.len() < size {
        return Ok(Case::Stop);
    }
    if !fills(input, &mut payload[..size])? {
        return Ok(Case::Stop);
    }
    if has_form(kind, &payload[..size]) {
        return Ok(r);
    }
    Ok(Case::Stop)
}
