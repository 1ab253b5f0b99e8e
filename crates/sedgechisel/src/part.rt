// Where data are in octets.

/// This many octets from a place on, which is counted from 0.
#[repr(C)]
#[derive(Clone, Copy)]
pub struct Part {
    pub from: usize,
    pub count: usize,
}
