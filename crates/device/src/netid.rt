// The class of a netid.
ghost use Rattle.std.specs.Prelude.{◌≡◌};
ghost use Rattle.device.specs.Netids.{class_of};

#[derive(Clone, Copy)]
pub enum NetidClass {
    Other,
    Tcp,
    Tcp6,
    Udp,
    Udp6,
    Rdma,
    Rdma6,
}

// Not a match on the bytes: its proof has 29 goals, one for each way that lengths and bytes may differ.
#[tactic(auto, unfolding(crate::specs::Netids::class_of, base::specs::Answer::pick))]
pub(crate) fn class_of(s: &[u8]) -> NetidClass
    ensures { result ≡ class_of s.now }
{
    if octets::same(s, b"tcp") {
        return NetidClass::Tcp;
    }
    if octets::same(s, b"tcp6") {
        return NetidClass::Tcp6;
    }
    if octets::same(s, b"udp") {
        return NetidClass::Udp;
    }
    if octets::same(s, b"udp6") {
        return NetidClass::Udp6;
    }
    if octets::same(s, b"rdma") {
        return NetidClass::Rdma;
    }
    if octets::same(s, b"rdma6") {
        return NetidClass::Rdma6;
    }
    NetidClass::Other
}
