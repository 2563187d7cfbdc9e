// An event as it comes. The bytes of a grant are beside it, since an enum holds no slice.

// What a return and a recall name.
#[derive(Clone, Copy)]
pub struct Numbers {
    pub offset: u64,
    pub len: u64,
    pub iomode: u32,
}

#[derive(Clone, Copy)]
pub enum Event {
    Grant,
    Return(Numbers),
    Recall(Numbers),
    Revoke,
}
