//! What was read, and what is left to read.
use std::marker::Model;

#[derive(Drop)]
pub(crate) struct Found<'a, T> {
    pub value: T,
    pub rest: &'a [u8],
}

impl<'a, T> Model for Found<'a, T> {
    ghost use Rattle.texts.specs.Reading.{Read, read};

    ghost Value = { Read T };

    ghost view = { λ f. read f.value f.rest.now };
}
