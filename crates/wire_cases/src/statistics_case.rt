// The statistics of a layout return that is read.
use base::Refusal;
use print::{Hex, Refused};
use statistics::{Filehandle, Latency, LayoutUpdate, Netaddr, Statistic};
use std::io;
use std::io::Write;

// The bytes that count; nothing where there are fewer.
fn print_opaque(out: &mut impl Write, name: &str, bytes: &[u8], length: u32) -> io::Result<()> {
    let size = length as usize;
    if bytes.len() < size {
        return Ok(());
    }
    write!(out, ",{name}={}", Hex(&bytes[..size]))
}

fn print_address(out: &mut impl Write, a: &Netaddr) -> io::Result<()> {
    print_opaque(out, "netid", &a.netid.bytes, a.netid.length)?;
    print_opaque(out, "address", &a.text.bytes, a.text.length)
}

fn print_filehandle(out: &mut impl Write, f: &Filehandle) -> io::Result<()> {
    print_opaque(out, "filehandle", &f.bytes, f.length)
}

fn print_latency(out: &mut impl Write, name: &str, l: &Latency) -> io::Result<()> {
    write!(
        out,
        ",{name}={}/{}/{}/{}/{}",
        l.ops_requested,
        l.bytes_requested,
        l.ops_completed,
        l.bytes_completed,
        l.bytes_not_delivered
    )?;
    write!(
        out,
        "/{}/{}/{}/{}",
        l.busy.seconds, l.busy.nanoseconds, l.completion.seconds, l.completion.nanoseconds
    )
}

fn print_update(out: &mut impl Write, u: &LayoutUpdate) -> io::Result<()> {
    print_address(out, &u.address)?;
    print_filehandle(out, &u.filehandle)?;
    print_latency(out, "read-latency", &u.read)?;
    print_latency(out, "write-latency", &u.write)?;
    write!(
        out,
        ",duration={}/{},local={}",
        u.duration.seconds, u.duration.nanoseconds, u.local
    )
}

fn print_record(out: &mut impl Write, s: &Statistic) -> io::Result<()> {
    write!(
        out,
        " offset={},length={},stateid={}",
        s.offset,
        s.length,
        Hex(&s.stateid)
    )?;
    write!(
        out,
        ",read={}/{},write={}/{},device={}",
        s.read.count,
        s.read.bytes,
        s.write.count,
        s.write.bytes,
        Hex(&s.device)
    )?;
    print_update(out, &s.update)
}

fn print_records(out: &mut impl Write, records: &[Statistic], count: u32) -> io::Result<()> {
    for record in records.iter().take(count as usize) {
        print_record(out, record)?;
    }
    Ok(())
}

// Where the reports are accepted, so are the statistics: a refusal here would show in the line.
pub(crate) fn print_statistics(out: &mut impl Write, payload: &[u8]) -> io::Result<()> {
    let got = report::read_statistics(payload);
    match got.answer {
        Err(e) => write!(out, "{}", Refused(Refusal::from(e))),
        Ok(count) => {
            write!(out, " statistics={count}")?;
            print_records(out, &got.statistics, count)
        }
    }
}
