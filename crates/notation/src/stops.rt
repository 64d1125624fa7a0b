// Why the reading of a text stops: there is no memory left, or a fault in the text. `P` is what can be wrong with it.
ghost use Rattle.std.specs.Prelude.{◌≡◌, Some};
ghost use Rattle.notation.specs.Stops.{place_of};

use std::alloc::{AllocError, AllocFailed};

// A problem at a byte of the text. Its line and column are counted later, once.
#[derive(Clone, Copy)]
pub struct Fault<P> {
    pub at: usize,
    pub problem: P,
}

#[derive(Drop)]
pub enum Stop<P> {
    Memory(AllocError),
    Fault(Fault<P>),
}

impl<P> Stop<P> {
    pub fn at(at: usize, problem: P) -> Stop<P>
        ensures { place_of result ≡ Some at }
    {
        Stop::Fault(Fault { at, problem })
    }

    // The same stop, told as a problem of another kind.
    pub fn told_as<Q: From<P>>(self) -> Stop<Q>
        ensures { place_of result ≡ place_of self }
    {
        match self {
            Stop::Memory(e) => Stop::Memory(e),
            Stop::Fault(Fault { at, problem }) => Stop::at(at, Q::from(problem)),
        }
    }
}

impl<P> From<AllocError> for Stop<P> {
    fn from(e: AllocError) -> Stop<P> {
        Stop::Memory(e)
    }
}

impl<P, T: Drop> From<AllocFailed<T>> for Stop<P> {
    fn from(e: AllocFailed<T>) -> Stop<P> {
        Stop::Memory(e.into())
    }
}
