// The cells and rows of a claim, by what is known of names.
use crate::atoms::Live;
use crate::known::Known;

#[derive(Clone, Copy)]
pub struct View<'a> {
    pub live: &'a Live,
    pub known: &'a Known,
}
