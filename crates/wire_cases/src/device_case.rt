// A device body.
use base::Refusal;
use device::{Address, NetidClass, Version};
use print::{Refused, between};
use std::io;
use std::io::Write;

fn class_name(class: &NetidClass) -> &'static str {
    match class {
        NetidClass::Tcp => "tcp",
        NetidClass::Tcp6 => "tcp6",
        NetidClass::Udp => "udp",
        NetidClass::Udp6 => "udp6",
        NetidClass::Rdma => "rdma",
        NetidClass::Rdma6 => "rdma6",
        NetidClass::Other => "other",
    }
}

fn print_addresses(out: &mut impl Write, addresses: &[Address], count: u32) -> io::Result<()> {
    for (i, a) in addresses.iter().take(count as usize).enumerate() {
        let class = class_name(&a.class);
        write!(
            out,
            "{}{class}:{}+{}",
            between(",", i),
            a.text.start,
            a.text.len
        )?;
    }
    Ok(())
}

fn print_versions(out: &mut impl Write, versions: &[Version], count: u32) -> io::Result<()> {
    for (i, v) in versions.iter().take(count as usize).enumerate() {
        write!(
            out,
            "{}{}.{}:{}:{}:{}",
            between(",", i),
            v.version,
            v.minor,
            v.rsize,
            v.wsize,
            u32::from(v.tight)
        )?;
    }
    Ok(())
}

pub fn print_device(out: &mut impl Write, payload: &[u8]) -> io::Result<()> {
    let got = device::read_device(payload);
    write!(out, "device")?;
    match got.answer {
        Err(e) => write!(out, "{}", Refused(Refusal::from(e))),
        Ok(counts) => {
            write!(out, " addresses=")?;
            print_addresses(out, &got.addresses, counts.addresses)?;
            write!(out, " versions=")?;
            print_versions(out, &got.versions, counts.versions)
        }
    }
}
