// What was read of a layout body or of a whole layout4: the summary, the starts of the data servers, and the range.
ghost use Rattle.std.specs.Prelude.{◌≡◌};
ghost use Rattle.layout.specs.Answers.{answer_of_layout};
ghost use Rattle.layout4.specs.Answers.{answer_of_layout4};
ghost use Rattle.abi_wire.specs.LayoutResults.{layout4_result, layout_result, part_record, summary_record};

use base::MOST_STARTS;
use layout::{LayoutRead, Summary};
use layout4::Layout4Read;
use xdr::Part;

#[repr(C)]
#[derive(Clone, Copy)]
pub struct PartRecord {
    pub start: usize,
    pub len: usize,
}

#[repr(C)]
#[derive(Clone, Copy)]
pub struct SummaryRecord {
    pub unit: u64,
    pub mirrors: u32,
    pub servers: u32,
    pub flags: u32,
    pub hint: u32,
}

// The start of a data server is at the index mirror * 16 + stripe.
#[repr(C)]
#[derive(Clone, Copy)]
pub struct LayoutResult {
    pub refusal: u32,
    pub summary: SummaryRecord,
    pub starts: [u16; MOST_STARTS],
}

#[repr(C)]
#[derive(Clone, Copy)]
pub struct Layout4Result {
    pub refusal: u32,
    pub iomode: u32,
    pub offset: u64,
    pub length: u64,
    pub last: u64,
    pub body: PartRecord,
    pub summary: SummaryRecord,
    pub starts: [u16; MOST_STARTS],
}

pub(crate) const NO_PART: PartRecord = PartRecord { start: 0, len: 0 };

const NO_SUMMARY: SummaryRecord = SummaryRecord {
    unit: 0,
    mirrors: 0,
    servers: 0,
    flags: 0,
    hint: 0,
};

pub(crate) fn part_record(p: Part) -> PartRecord
    ensures { result ≡ part_record p }
{
    PartRecord {
        start: p.start,
        len: p.len,
    }
}

fn summary_record(s: Summary) -> SummaryRecord
    ensures { result ≡ summary_record s }
{
    SummaryRecord {
        unit: s.unit,
        mirrors: s.mirrors,
        servers: s.servers,
        flags: s.flags,
        hint: s.hint,
    }
}

#[tactic(auto, unfolding(crate::specs::LayoutResults::layout_result))]
pub fn layout_result(l: LayoutRead) -> LayoutResult
    ensures { result ≡ layout_result (answer_of_layout l.answer l.starts) }
{
    match l.answer {
        Err(e) => LayoutResult {
            refusal: u32::from(e),
            summary: NO_SUMMARY,
            starts: [0u16; MOST_STARTS],
        },
        Ok(s) => {
            let starts = l.starts;
            LayoutResult {
                refusal: 0,
                summary: summary_record(s),
                starts,
            }
        }
    }
}

#[tactic(auto, unfolding(crate::specs::LayoutResults::layout4_result))]
pub fn layout4_result(l: Layout4Read) -> Layout4Result
    ensures { result ≡ layout4_result (answer_of_layout4 l.answer l.starts) }
{
    match l.answer {
        Err(e) => Layout4Result {
            refusal: u32::from(e),
            iomode: 0,
            offset: 0,
            length: 0,
            last: 0,
            body: NO_PART,
            summary: NO_SUMMARY,
            starts: [0u16; MOST_STARTS],
        },
        Ok((f, s)) => {
            let starts = l.starts;
            Layout4Result {
                refusal: 0,
                iomode: u32::from(f.iomode),
                offset: f.offset,
                length: f.length,
                last: f.last,
                body: part_record(f.body),
                summary: summary_record(s),
                starts,
            }
        }
    }
}
