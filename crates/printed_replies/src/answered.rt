//! Lines with their replies.
use crate::asked::Asked;

/// A line and its reply: a part of the printed text.
#[derive(Clone, Copy)]
pub struct Answered<'t, 'p> {
    pub asked: Asked<'t>,
    pub reply: &'p [u8],
}
