//! Reading and writing of values as bytes.
//!
//! A type gives each value one spelling, a list of bytes, and no spelling begins another: so what
//! was written can be read again, whatever follows it, and a list is its length and then its items.
//!
//! - A word, a `u64`, is eight bytes, highest first.
//! - A length, from 0 to 2^32 - 1, is in groups of seven bits, lowest first, one a byte. Bit 7 is
//!   set on every byte but the last, and the last byte is zero only as the first: 3 is `03`, 300 is
//!   `ac 02`. So a length takes at most five bytes, and the fifth is at most 15.
//! - A list is its length and then its items in order.

mod decoding;
mod error;
mod length;
mod list;
mod range;
mod read;
mod word;
mod write;

pub use decoding::decode;
pub use error::Error;
pub use length::{len_size, read_len, write_len};
pub use list::{list_size, read_list, write_list};
pub use range::LengthRange;
pub use read::{Encoding, Read};
use std::alloc::AllocError;
pub use write::{EncodeSize, FixedSize, MaxEncodeSize, Write, roll_back};

/// What a call answers that fails only if memory runs out.
pub type Mem<T> = Result<T, AllocError>;
