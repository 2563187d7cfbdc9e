// The forms of the payloads, by kind of case.
use base::STORE_SIZE;

// The length of a whole store, as a case gives a length of it or an offset in it.
const WHOLE_STORE: u32 = STORE_SIZE as u32;

fn is_set_byte(payload: &[u8]) -> bool {
    if payload.len() != 5 {
        return false;
    }
    octets::le4(payload, 0) < WHOLE_STORE
}

fn is_set_segment(payload: &[u8]) -> bool {
    if payload.len() != 32 {
        return false;
    }
    let iomode = octets::le4(payload, 0);
    if iomode != 1 && iomode != 2 {
        return false;
    }
    if 31 < octets::le4(payload, 4) {
        return false;
    }
    if 2 < octets::le4(payload, 24) {
        return false;
    }
    octets::le4(payload, 28) <= 255
}

fn is_lend(payload: &[u8]) -> bool {
    if payload.len() != 4 {
        return false;
    }
    octets::le4(payload, 0) <= WHOLE_STORE
}

// No payload has the form of an unknown kind.
pub(crate) fn has_form(kind: u32, payload: &[u8]) -> bool {
    match kind {
        1 | 64 | 65 | 66 | 68 => true,
        4 | 9 => payload.len() == 20,
        5 | 72 | 73 | 76 => payload.len() == 0,
        67 => wire_cases::is_bind(payload),
        69 => wire_cases::is_report_write(payload),
        70 | 71 => payload.len() == 16,
        74 => is_set_byte(payload),
        75 => is_set_segment(payload),
        77 => is_lend(payload),
        78 => wire_cases::is_return_write(payload),
        _ => false,
    }
}
