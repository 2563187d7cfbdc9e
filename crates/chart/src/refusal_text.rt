// A refusal, in words.
use base::{Fault, Refusal};
use std::io;
use std::io::Write;

// The faults of a layout4.
fn meaning(e: Fault) -> &'static str {
    match e {
        Fault::BytesRunOut => "the bytes run out before an item is complete",
        Fault::BytesLeftOver => "bytes are left over",
        Fault::IomodeNotAllowed => "the iomode is neither READ nor RW",
        Fault::LayoutTypeUnknown => "the layout type is not 4, flexible files",
        Fault::RangeInvalid => "offset and length are no range of a file",
        Fault::PaddingNotZero => "a padding byte is not 0",
        Fault::OutsideLimit => "a count or length is outside its limit",
        Fault::ServerCountDiffers => "a later mirror's server count differs from the first's",
        Fault::UnitDisagrees => "stripe unit and server count disagree",
        Fault::FlagUnknown => "a flag is unknown",
        _ => "not a fault of a layout",
    }
}

// An empty table and store refuse nothing but faults.
pub(crate) fn print_refused(out: &mut impl Write, e: Refusal) -> io::Result<()> {
    let text = match e {
        Refusal::Fault(f) => meaning(f),
        _ => "not a refusal of a layout",
    };
    writeln!(out, "refused {}: {text}", u32::from(e))
}
