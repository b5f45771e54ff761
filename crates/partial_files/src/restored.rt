//! A file of known length, or as many bytes on standard output.

ghost use Rattle.std.specs.Prelude.{◌≡◌, ◌+◌, ◌≤◌, length, IfOk, OnOk};

use crate::fault::Fault;
use crate::finishing::{folders_of, name_all};
use crate::partial::{Manner, Partial};
use std::{io, slice};

/// A file of known length that is being written, or standard output.
#[derive(Drop)]
pub struct Restored {
    /// The file; none where the bytes go to standard output.
    partial: Option<Partial>,
    length: u64,
    /// The number of bytes that are still to be written.
    pub left: u64,
}

impl Restored {
    /// A file of so many bytes, none of which is written.
    pub fn create(
        rt: &HostRuntime,
        path: String,
        how: &Manner,
        length: u64,
    ) -> Result<Restored, Fault>
        ensures { IfOk result (λ r. r.left ≡ length) }
    {
        let partial = Partial::create(rt, path, how, 0)?;
        Ok(Restored {
            partial: Some(partial),
            length,
            left: length,
        })
    }

    /// So many bytes on standard output, none of which is written.
    pub fn to_standard_output(length: u64) -> Restored
        ensures { result.left ≡ length }
    {
        Restored {
            partial: None,
            length,
            left: length,
        }
    }

    /// Writes the next bytes.
    pub fn write(&mut self, rt: &HostRuntime, bytes: &[u8]) -> Result<(), Fault>
        requires { length bytes.now ≤ self.old.left }
        ensures { OnOk result (self.new.left + length bytes.now ≡ self.old.left) }
    {
        match &mut self.partial {
            Some(partial) => partial.append(rt, bytes)?,
            None => io::Write::write_all(&mut io::writer(rt), bytes)?,
        }
        self.left -= bytes.len() as u64;
        Ok(())
    }

    /// Leaves out the next bytes of the file, which are zeros there.
    pub fn pass_over(&mut self, rt: &HostRuntime, count: u64) -> Result<(), Fault>
        requires { count ≤ self.old.left }
        ensures { OnOk result (self.new.left + count ≡ self.old.left) }
    {
        if let Some(partial) = &mut self.partial {
            partial.pass_over(rt, count)?;
        }
        self.left -= count;
        Ok(())
    }

    /// Gives the file its name, once all of it is written.
    pub fn finish(self, rt: &HostRuntime) -> Result<(), Fault>
        requires { self.left ≡ 0 }
    {
        let Some(partial) = &self.partial else {
            return Ok(());
        };
        match settle(rt, partial, self.length) {
            Ok(folders) => name_all(rt, slice::from_ref(partial), folders),
            Err(fault) => {
                partial.remove(rt);
                Err(fault)
            }
        }
    }

    /// Removes what was written.
    pub fn discard(self, rt: &HostRuntime) {
        if let Some(partial) = &self.partial {
            partial.remove(rt);
        }
    }
}

/// Gives a file this length, and has the system write it to the device. It answers its folder.
fn settle(rt: &HostRuntime, partial: &Partial, length: u64) -> Result<Vec<String>, Fault> {
    partial.lengthen(rt, length)?;
    partial.settle(rt)?;
    Ok(folders_of(rt.alloc(), slice::from_ref(partial))?)
}
