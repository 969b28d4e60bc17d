//! How many words an export takes, as a type. What puts a packed record is built once for each, so that it has one
//! caller, and the compiler puts it there.

use dspec_record::{Header, KnownHeader};
use std::alloc::AllocError;
use std::marker::PhantomData;

/// One word.
#[derive(Debug, Clone, Copy)]
pub struct OneWord;

/// Two words.
#[derive(Debug, Clone, Copy)]
pub struct TwoWords;

/// Three words.
#[derive(Debug, Clone, Copy)]
pub struct ThreeWords;

/// As many words as there are.
#[derive(Debug, Clone, Copy)]
pub struct AllWords;

/// A header that is known, of records of so many words.
pub struct Worded<N, H: KnownHeader> {
    count: PhantomData<N>,
    header: PhantomData<H>,
}

impl<N, H: KnownHeader> Copy for Worded<N, H> {}

impl<N, H: KnownHeader> Clone for Worded<N, H> {
    fn clone(&self) -> Result<Worded<N, H>, AllocError> {
        Ok(Worded {
            count: PhantomData,
            header: PhantomData,
        })
    }
}

impl<N, H: KnownHeader> KnownHeader for Worded<N, H> {
    ghost header_is = { H.header_is };

    #[inline(always)]
    fn header() -> Header {
        H::header()
    }
}
