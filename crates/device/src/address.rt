// One network address of a device body: a netid and an address text.
ghost use Rattle.std.specs.Prelude.{◌≡◌};
ghost use Rattle.xdr.specs.Answers.{parsed_of};
ghost use Rattle.device.specs.Addresses.{address_at};

use crate::list::Item;
use crate::netid::{NetidClass, class_of};
use base::{LONGEST_ADDRESS, LONGEST_NETID};
use xdr::{Cursor, Part, Read};

// The class of the netid, and where the address text is in the body.
#[derive(Clone, Copy)]
pub struct Address {
    pub class: NetidClass,
    pub text: Part,
}

impl Item for Address {
    ghost item_at = { address_at };

    #[tactic(auto, using(xdr::proofs::Accepted::opaque_within), unfolding(crate::specs::Addresses::address_at, xdr::specs::Parsed::then))]
    fn read(s: &[u8], c: Cursor) -> Read<Address> {
        let (netid, d) = xdr::read_opaque(s, c, 1, LONGEST_NETID)?;
        let (text, e) = xdr::read_opaque(s, d, 1, LONGEST_ADDRESS)?;
        let end = netid.start + netid.len;
        let class = class_of(&s[netid.start..end]);
        Ok((Address { class, text }, e))
    }
}
